// Writing a whole text.

ghost use Rattle.std.specs.Prelude.{◌≡◌, OnErr, OnOk};
ghost use Rattle.std.specs.Io.KnownBytes.{Appends};
ghost use Rattle.whole_streams.specs.Streams.{RoseOneOf, WritesPart};

use spmd_ports::{Failed, Sink};

/// Writes the whole of a text.
///
/// Where a write fails, or takes none of the bytes that are left, a part from the front of the
/// text was written.
pub fn write_all<K: Sink>(sink: &mut K, text: &[u8]) -> Result<(), Failed>
    ensures written { OnOk result (Appends (K.written sink.old) (K.written sink.new) text.now) }
    ensures part { OnErr result (WritesPart (K.written sink.old) (K.written sink.new) text.now) }
    ensures fault { OnErr result (RoseOneOf (K.faults sink.old) (K.faults sink.new)
        (K.empties sink.old) (K.empties sink.new)) }
    ensures no_fault { OnOk result (K.faults sink.new ≡ K.faults sink.old) }
    ensures no_empty { OnOk result (K.empties sink.new ≡ K.empties sink.old) }
{
    let mut written = 0;
    while written < text.len() {
        let Ok(taken) = sink.write(&text[written..]) else {
            return Err(Failed);
        };
        if taken == 0 {
            return Err(Failed);
        }
        written += taken;
    }
    Ok(())
}
