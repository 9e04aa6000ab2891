// Sources and sinks by their traits, as generic callers call them. What the clauses leave open is
// want of memory, and what the standard streams carry.

use spmd_ports::{Failed, Gate, MemSink, MemSource, NoGate, Sink, Source, StdSink, StdSource};
use std::test::Fail;

fn read<S: Source>(source: &mut S, into: &mut [u8]) -> Result<usize, Failed> {
    source.read(into)
}

fn write<K: Sink>(sink: &mut K, from: &[u8]) -> Result<usize, Failed> {
    sink.write(from)
}

fn pass<G: Gate + Sync>(gate: &G, worker: u32, phase: u64) {
    gate.pass(worker, phase);
}

#[test]
fn a_source_fails_at_the_listed_call_and_then_goes_on(rt: HostRuntime) -> Result<(), Fail> {
    let mut source = MemSource::new(rt.alloc(), b"ABCDEF", 4, &[2])?;
    let answers = [
        (Ok(4), b"ABCD...."),
        (Err(Failed), b"ABCD...."),
        (Ok(2), b"EFCD...."),
        (Ok(0), b"EFCD...."),
    ];
    let mut into = *b"........";
    for (answer, held) in answers {
        assert_eq!(rt; read(&mut source, &mut into), answer);
        assert_eq!(rt; into.as_slice(), held.as_slice());
    }
    Ok(())
}

#[test]
fn a_sink_fails_at_the_listed_call_and_takes_no_more_than_its_room(
    rt: HostRuntime,
) -> Result<(), Fail> {
    let mut sink = MemSink::new(rt.alloc(), 3, 1, &[3], &[])?;
    for answer in [Ok(1), Ok(1), Err(Failed), Ok(1), Ok(0)] {
        assert_eq!(rt; write(&mut sink, b"SP"), answer);
    }
    assert_eq!(rt; sink.written(), b"SSS".as_slice());
    Ok(())
}

#[test]
fn the_standard_streams_and_no_gate_are_called(rt: HostRuntime) {
    let mut source = StdSource::new(rt.stdin());
    assert_eq!(rt; read(&mut source, &mut []), Ok(0));
    let mut sink = StdSink::new(rt.stdout());
    assert_eq!(rt; write(&mut sink, b"SPMD\n"), Ok(5));
    pass(&NoGate, 0, 1);
}
