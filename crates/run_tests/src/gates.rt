// That workers run beside one another, which no clause says: gates that hold a worker until another
// has come. What a run leaves is looked at too.

use crate::plans::{MIRROR, ROUNDING};
use crate::runs::{Left, case_of};
use bstr::ByteSlice;
use fork_join::run_join;
use spmd_model::Style;
use spmd_ports::Gate;
use spmd_workers::run_spmd_with;
use std::alloc::Global;
use std::hint;
use std::sync::atomic::{AtomicU64, Ordering};
use std::test::Fail;
use std::thread::Threads;

// So often a gate looks for a worker that is to come, which on a busy machine may take seconds, and
// for one that isn't to, before it lets a worker pass.
const PATIENCE: u32 = 4_000_000_000;

const GLANCE: u32 = 1_000_000;

// What the plan whose certificates round prints, and the memory behind it.
const ROUNDED: &[u8] = b" 5 5 0 0 0 0 0 0\n";

const ROUNDED_CELLS: &[i64] = &[5, 5, 0, 0, 0, 0, 0, 0];

// Whether a count comes to a number before one has looked so often.
fn comes_to(count: &AtomicU64, wanted: u64, looks: u32) -> bool {
    for _ in 0..looks {
        if wanted <= count.load(Ordering::SeqCst) {
            return true;
        }
        hint::spin_loop();
    }
    false
}

// A gate that holds each worker in phase 1 until two have come there, and counts those that it held
// in vain.
#[derive(Drop)]
struct Meeting {
    come: AtomicU64,
    late: AtomicU64,
}

impl Meeting {
    fn new() -> Self {
        Meeting {
            come: AtomicU64::new(0),
            late: AtomicU64::new(0),
        }
    }
}

impl Gate for Meeting {
    fn pass(&self, _p: u32, e: u64) {
        if e == 1 {
            self.come.fetch_add(1, Ordering::SeqCst);
            if !comes_to(&self.come, 2, PATIENCE) {
                self.late.fetch_add(1, Ordering::SeqCst);
            }
        }
    }
}

// A gate that holds worker 0 in phase 1 until worker 1 has come to phase 2, for so many looks.
#[derive(Drop)]
struct Overtaking {
    come: AtomicU64,
    late: AtomicU64,
    looks: u32,
}

impl Overtaking {
    fn new(looks: u32) -> Self {
        Overtaking {
            come: AtomicU64::new(0),
            late: AtomicU64::new(0),
            looks,
        }
    }
}

impl Gate for Overtaking {
    fn pass(&self, p: u32, e: u64) {
        if p == 1 && e == 2 {
            self.come.store(1, Ordering::SeqCst);
        }
        if p == 0 && e == 1 && !comes_to(&self.come, 1, self.looks) {
            self.late.store(1, Ordering::SeqCst);
        }
    }
}

// How a plan is run: by fork and join, or over shared words with barriers in a style.
#[derive(Clone, Copy)]
enum Way {
    Join,
    Spmd(Style),
}

// What a run of a source by the plan behind it leaves, whose workers pass a gate.
fn left_by<R: Threads + Sync, G: Gate + Sync>(
    rt: &R,
    alloc: Global,
    bytes: &[u8],
    by: (Way, &G),
) -> Result<Left, Fail> {
    let (program, plan) = case_of(rt, alloc, bytes)?;
    let (way, gate) = by;
    match way {
        Way::Join => {
            let (receipt, output) = run_join(rt, alloc, &program, &plan, gate)?;
            let memory = receipt.memory().to_vec(alloc)?;
            Ok((memory, output.as_slice().to_vec(alloc)?))
        }
        Way::Spmd(style) => {
            let (closed, output) = run_spmd_with(rt, alloc, &program, &plan, gate, style)?;
            let memory = closed.memory().to_vec(alloc)?;
            Ok((memory, output.as_slice().to_vec(alloc)?))
        }
    }
}

// One text with one change, by each way: both workers meet in the first phase, and what is left is
// what the program leaves.
#[test]
fn workers_run_beside_one_another(rt: HostRuntime) -> Result<(), Fail> {
    let alloc = rt.alloc();
    let rows: [(&[u8], &[u8]); 3] = [
        (b"", b""),
        (b"1 BARRIER", b"1 NOTHING"),
        (b"3 BARRIER", b"3 JOIN"),
    ];
    for &(old, new) in &rows {
        let text = ROUNDING.replacen(alloc, old, new, 1)?;
        for way in [
            Way::Join,
            Way::Spmd(Style::Arrive),
            Way::Spmd(Style::Dissemination),
        ] {
            let gate = Meeting::new();
            let (memory, output) = left_by(&rt, alloc, text.as_slice(), (way, &gate))?;
            assert_eq!(rt; gate.come.load(Ordering::SeqCst), 2);
            assert_eq!(rt; gate.late.load(Ordering::SeqCst), 0);
            assert_eq!(rt; output.as_slice(), ROUNDED);
            assert_eq!(rt; memory.as_slice(), ROUNDED_CELLS);
        }
    }
    Ok(())
}

// Two loops of which neither needs the other, and a plan without a wait in front of them.
fn two_loops(alloc: Global) -> Result<Vec<u8>, Fail> {
    let text = MIRROR.replacen(alloc, b"A(7-I)", b"I", 1)?;
    let text = text
        .as_slice()
        .replacen(alloc, b"1 BARRIER", b"1 NOTHING", 1)?;
    Ok(
        text.as_slice()
            .replacen(alloc, b"2 BARRIER", b"2 NOTHING", 1)?,
    )
}

// Over shared words a worker goes on into the next phase while another is in this one; where all
// are joined behind each phase it doesn't.
#[test]
fn a_worker_may_be_a_phase_ahead(rt: HostRuntime) -> Result<(), Fail> {
    let alloc = rt.alloc();
    let text = two_loops(alloc)?;
    for (way, looks, late) in [
        (Way::Spmd(Style::Arrive), PATIENCE, 0),
        (Way::Spmd(Style::Dissemination), PATIENCE, 0),
        (Way::Join, GLANCE, 1),
    ] {
        let gate = Overtaking::new(looks);
        let (_, output) = left_by(&rt, alloc, text.as_slice(), (way, &gate))?;
        assert_eq!(rt; output.as_slice(), b" 1\n".as_slice());
        assert_eq!(rt; gate.late.load(Ordering::SeqCst), late);
    }
    Ok(())
}
