// One processor's worker.

ghost use Rattle.std.specs.Prelude.{◌≡◌, ◌+◌, ◌%◌, ◌^◌, ◌≤◌, ◌<◌, ◌↔◌, ◌⊎◌, false, true, ℕ, [], IfErr, IfOk};
ghost use Rattle.shared_words.specs.Calls.{IsEndedSeat, StandsInVain, first_seat};
ghost use Rattle.shared_words.specs.Homes.{IsSameTable, at_place, main_in, protocol_at};
ghost use Rattle.spmd_workers.specs.Legs.{AreAnswered, IsJoined, IsWaiting, answered_last};
ghost use Rattle.spmd_workers.specs.Places.{printed_behind};
ghost use Rattle.spmd_workers.specs.Workers.{IsInside, IsOver, IsPlaced, worker_in};
ghost use Rattle.spmd_workers.specs.declared.worker.Leg.TheVariants.{Ended, Joined, Waiting};

use crate::laws::laws_of;
use crate::patience::Patience;
use crate::tables::Tables;
use crate::walk::Walk;
use instance_runs::Executor;
use own_cells::OWN_PLACES;
use seq_meaning::Output;
use shared_words::{CellSeat, Cells, MainSeat};
use spmd_ports::Gate;
use std::alloc::Global;
use std::marker::Model;
use turns::Turns;

/// Why a leg ended.
#[derive(Clone, Copy, Debug, PartialEq, Eq)]
pub enum Leg {
    /// The processor has done all its acts.
    Ended,
    /// It has posted at the Join in front of the phase with this number, from 1. The next leg
    /// awaits the others there.
    Joined(u64),
    /// It awaits that a number of processor `on`, on its counter or its signal, is at least `wanted`,
    /// and has polled it in vain at least 1,000 times in a row; the last poll found `seen`. At a
    /// barrier at which all arrive `on` is the number of processors and `wanted` how many arrivals
    /// are awaited.
    Waiting { on: u32, wanted: u64, seen: u64 },
}

/// A worker runs one processor's acts over the words that all share, leg by leg.
#[derive(Drop)]
pub struct Worker<'a> {
    walk: Walk<'a>,
}

impl<'a> Model for Worker<'a> {
    ghost use Rattle.instance_runs.specs.Executors.{executor_output};
    ghost use Rattle.spmd_workers.specs.Walks.{IsWalk};
    ghost use Rattle.spmd_workers.specs.Workers.{WorkerView, worker_code};

    ghost Value = { WorkerView };

    ghost coded = { worker_code };

    ghost view = { λ w.
        record {
          seat = w.walk.seat;
          answered = w.walk.answered;
          legs = w.walk.patience.legs;
          output = executor_output w.walk.executor;
          ended = w.walk.ended;
        } };

    ghost invariant = { λ w. IsWalk w.walk };
}

/// There was no memory for a worker. Its seat comes back.
#[derive(Drop)]
pub struct WorkerRefused {
    pub seat: CellSeat,
}

impl<'a> Worker<'a> {
    /// The worker of a seat's processor, which has done nothing. All memory that it can need is
    /// reserved: processor 0, which prints, has room for the whole output.
    pub fn new(
        alloc: Global,
        tables: &'a Tables<'a>,
        cells: &Cells<'_>,
        seat: CellSeat,
    ) -> Result<Worker<'a>, WorkerRefused>
        requires own { seat.home ≡ cells.now }
        requires given { cells.now.given ≡ tables.now }
        requires first { seat ≡ first_seat seat.home seat.processor }
        ensures seat { IfOk result (λ w. w.seat ≡ seat) }
        ensures answered { IfOk result (λ w. w.answered ≡ 0) }
        ensures legs { IfOk result (λ w. w.legs ≡ 0) }
        ensures output { IfOk result (λ w. w.output ≡ []) }
        ensures ended { IfOk result (λ w. w.ended ≡ false) }
        ensures refused { IfErr result (λ r. r.seat ≡ seat) }
    {
        laws_of(cells);
        let processor = seat.processor();
        let room = if processor == 0 { tables.room } else { 0 };
        let Ok(executor) = Executor::new(alloc, tables.program, &tables.cells, &tables.params, room)
        else {
            return Err(WorkerRefused { seat });
        };
        let turns = Turns::new(tables.program, tables.plan, tables.style, processor);
        Ok(Worker {
            walk: Walk {
                seat,
                turns,
                own: [0; OWN_PLACES],
                executor,
                answered: 0,
                patience: Patience::new(&tables.round),
                ended: false,
            },
        })
    }

    /// Goes on to the end, to the next Join, or to a wait that takes too long. Where another worker
    /// gives up a wait in its leg of the same number, or a later one, that is soon.
    pub fn leg<G: Gate>(&mut self, cells: &Cells<'_>, gate: &G) -> Leg
        requires own { self.old.seat.home ≡ cells.now }
        ensures home { self.new.seat.home ≡ self.old.seat.home }
        ensures processor { self.new.seat.processor ≡ self.old.seat.processor }
        ensures legs { self.new.legs ≡ (self.old.legs + 1) % 2 ^ 64 }
        ensures further { self.old.seat.position ≤ self.new.seat.position }
        ensures output { self.new.output ≡ printed_behind self.new.seat self.new.seat.position }
        ensures answered { AreAnswered self.new.seat self.new.answered }
        ensures counts { 1 < (protocol_at self.old.seat.home).workers
            → self.new.answered ≡ answered_last self.old.answered result }
        ensures ended { (result ≡ Ended) ↔ IsEndedSeat self.new.seat }
        ensures joined { (e : ℕ) → result ≡ Joined e → IsJoined self.old.answered self.new.seat e }
        ensures waiting { (on wanted seen : ℕ) → result ≡ Waiting on wanted seen
            → IsWaiting self.old.seat self.new.seat on wanted seen }
        ensures inside { IsInside self.new.seat }
        ensures goes { self.new.seat.position ≡ self.old.seat.position → (self.new.ended ≡ true)
            ⊎ StandsInVain self.old.seat }
    {
        laws_of(cells);
        self.walk.patience = self.walk.patience.next_leg();
        self.walk.leg(cells, gate)
    }

    /// Between two legs the main seat learns where its processor is, and tells it the places of others
    /// that it knows.
    pub fn note(&mut self, cells: &Cells<'_>, main: &mut MainSeat)
        requires main { IsSameTable main.old.home cells.now }
        requires seat { IsSameTable self.old.seat.home cells.now }
        ensures main { main.new
            ≡ main_in
            (at_place self.old.seat.processor self.old.seat.position main.old.home) main.old }
        ensures seat { self.new ≡ worker_in main.new.home self.old }
        ensures placed { IsPlaced self.new }
    {
        laws_of(cells);
        cells.note(main, &mut self.walk.seat);
    }

    /// Whether a leg has answered that it ended.
    pub fn has_ended(&self) -> bool
        ensures ended { result ≡ self.now.ended }
        ensures over { result ≡ true → IsOver self.now }
    {
        self.walk.ended
    }

    /// The seat, and what the PRINTs so far have printed.
    pub fn into_parts(self) -> (CellSeat, Output)
        ensures seat { result.0 ≡ self.entry.seat }
        ensures output { result.1.bytes ≡ self.entry.output }
    {
        let Worker { walk } = self;
        let Walk { seat, executor, .. } = walk;
        (seat, executor.into_output())
    }
}
