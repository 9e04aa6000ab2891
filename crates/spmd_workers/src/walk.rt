// The turns of a worker, one after another.

ghost use Rattle.std.specs.Prelude.{◌≡◌, ◌≤◌, ◌<◌, ◌≢◌, true, false, [], length, Option};

use crate::deeds::PhaseDeeds;
use crate::laws::laws_of;
use crate::patience::Patience;
use crate::polls::{Awaited, poll_arrivals_until, poll_signal_until, poll_until};
use crate::worker::Leg;
use fork_join::{NoOwn, Places, SomeOwn};
use instance_runs::{Executor, Progress};
use nest_walk::{Stop, Strip};
use own_cells::{OWN_PLACES, is_sum_place};
use shared_words::{CellSeat, Cells};
use spmd_ports::Gate;
use std::marker::PhantomData;
use std::snapshot::Snapshot;
use turns::{Boundary, Next, NextOrPhase, Turns};

// A worker's parts: its seat, the turns that it has left, its own cells by the places of own
// scalars, what it executes instances with, the phase in front of which the Join stands that it
// answered last, 0 at first, and its patience.
#[derive(Drop)]
pub(crate) struct Walk<'a> {
    pub(crate) seat: CellSeat,
    pub(crate) turns: Turns<'a>,
    pub(crate) own: [i64; OWN_PLACES],
    pub(crate) executor: Executor<'a>,
    pub(crate) answered: u64,
    pub(crate) patience: Patience<'a>,
    // whether a leg has come to its end
    pub(crate) ended: bool,
}

impl<'a> Walk<'a> {
    ghost use Rattle.std.specs.Prelude.{◌+◌, ◌++◌, IsTrue, List, nat_le};
    ghost use Rattle.std.specs.List.{flat_map, list_all};
    ghost use Rattle.nest_model.specs.Ranges.{is_instance_inside};
    ghost use Rattle.nest_walk.specs.Cursors.{visit_at};
    ghost use Rattle.nest_walk.specs.Strips.{strip_left, strip_tree};
    ghost use Rattle.spmd_model.specs.Deeds.{Deed, instance_deeds};
    ghost use Rattle.spmd_model.specs.MachineDeeds.{HasNoOwn};
    ghost use Rattle.instance_runs.specs.Executors.{Begins, CanExecute, executor_output, executor_room, executor_tree};
    ghost use Rattle.instance_runs.specs.Rooms.{visit_room};
    ghost use Rattle.turns.specs.CounterTurns.{boundary_at};
    ghost use Rattle.turns.specs.declared.counters.Boundary.{Boundary};
    ghost use Rattle.turns.specs.TurnsLeft.{beginnings_left, turns_left, turns_own, turns_place, turns_plan, turns_rounds, turns_tree};
    ghost use Rattle.turns.specs.declared.turns.Next.{Next};
    ghost use Rattle.shared_words.specs.Homes.{protocol_at};
    ghost use Rattle.fork_join.specs.SeenDeeds.{FindsOwn};
    ghost use Rattle.spmd_workers.specs.Places.{left_seen, place_of, plan_at, printed_behind, registers_behind, tree_at};
    ghost use Rattle.spmd_workers.specs.Walks.{ComesNext, EndsLeg, GoesTo, IsWalk, LeadsOn, TurnTells, walk_place};

    // On to the next wait that takes too long, to the next Join, or to the end.
    #[tactic(auto, using(crate::proofs::Legs::goes_more, crate::proofs::Legs::further_more))]
    pub(crate) fn leg<G: Gate>(&mut self, cells: &Cells<'_>, gate: &G) -> Leg
        requires ready { IsWalk self.old }
        requires own { self.old.seat.home ≡ cells.now }
        ensures goes { GoesTo self.old self.new }
        ensures ends { EndsLeg self.old self.new result }
    {
        loop {
            if let Some(leg) = self.turn(cells, gate) {
                return leg;
            }
        }
    }

    // One turn, or a strip of them, or the beginning of a phase, also one without an instance; what
    // the leg answers where it ends there.
    fn turn<G: Gate>(&mut self, cells: &Cells<'_>, gate: &G) -> Option<Leg>
        requires ready { IsWalk self.old }
        requires own { self.old.seat.home ≡ cells.now }
        ensures goes { GoesTo self.old self.new }
        ensures tells { TurnTells self.old self.new result }
    {
        if self.strip(cells) {
            return None;
        }
        match self.turns.peek_or_begin() {
            NextOrPhase::Phase(phase) => {
                gate.pass(self.seat.processor(), phase);
                None
            }
            NextOrPhase::Turn(next) => self.act(cells, next),
        }
    }

    // What comes next.
    fn act(&mut self, cells: &Cells<'_>, next: Next<'a>) -> Option<Leg>
        requires ready { IsWalk self.old }
        requires own { self.old.seat.home ≡ cells.now }
        requires next { ComesNext self.old next }
        ensures goes { GoesTo self.old self.new }
        ensures tells { TurnTells self.old self.new result }
    {
        match next {
            Next::Work(stop) => self.work(cells, stop),
            Next::Post(number) => self.post(cells, number),
            Next::Await { on, wanted } => self.wait(cells, on, wanted),
            Next::Signal(number) => self.signal(cells, number),
            Next::AwaitSignal { on, wanted } => self.wait_for_signal(cells, on, wanted),
            Next::Close(place) => self.close(cells, place),
            Next::End => self.end(cells),
        }
    }

    // The end.
    fn end(&mut self, cells: &Cells<'_>) -> Option<Leg>
        requires ready { IsWalk self.old }
        requires own { self.old.seat.home ≡ cells.now }
        requires next { ComesNext self.old Next.End }
        ensures goes { GoesTo self.old self.new }
        ensures tells { TurnTells self.old self.new result }
    {
        laws_of(cells);
        self.ended = true;
        Some(Leg::Ended)
    }

    // The trips that come next of a loop round one assignment; whether there are some.
    fn strip(&mut self, cells: &Cells<'_>) -> bool
        requires ready { IsWalk self.old }
        requires own { self.old.seat.home ≡ cells.now }
        ensures goes { GoesTo self.old self.new }
        ensures on { result ≡ true → LeadsOn self.old self.new }
        ensures same { result ≡ false → self.new.seat ≡ self.old.seat }
        ensures left { result ≡ false → turns_left self.new.turns ≡ turns_left self.old.turns }
        ensures begins { beginnings_left self.new.turns ≡ beginnings_left self.old.turns }
        ensures answered { self.new.answered ≡ self.old.answered }
    {
        laws_of(cells);
        let turns = Snapshot::of(&self.turns);
        let Some(strip) = self.turns.strip() else {
            return false;
        };
        self.repeat(cells, strip, turns);
        true
    }

    // These trips, which come next of those turns, in a phase without own scalars; how many deeds
    // that was.
    fn repeat(
        &mut self,
        cells: &Cells<'_>,
        strip: Strip<'a>,
        turns: Snapshot<Turns<'a>>,
    ) -> Snapshot<Progress>
        requires own { self.old.seat.home ≡ cells.now }
        requires worker { self.old.seat.processor < (protocol_at self.old.seat.home).workers }
        requires finds { FindsOwn (tree_at self.old.seat.home) (plan_at self.old.seat.home)
            (turns_place turns.value) HasNoOwn }
        requires can { CanExecute self.old.executor }
        requires walked { strip_tree strip ≡ executor_tree self.old.executor }
        requires inside { IsTrue (list_all (is_instance_inside (executor_tree self.old.executor))
            (strip_left strip)) }
        requires left { (rest : List Deed)
            × (left_seen turns.value self.old.seat self.old.seat self.old.own
            (place_of self.old.seat turns.value)
            ≡ flat_map (instance_deeds (executor_tree self.old.executor)) (strip_left strip)
            ++ rest) }
        requires idle { registers_behind self.old.seat (place_of self.old.seat turns.value) ≡ [] }
        ensures home { self.new.seat.home ≡ self.old.seat.home }
        ensures processor { self.new.seat.processor ≡ self.old.seat.processor }
        ensures can { CanExecute self.new.executor }
        ensures program { executor_tree self.new.executor ≡ executor_tree self.old.executor }
        ensures left { left_seen turns.entry.value self.old.seat self.old.seat self.old.own
            (place_of self.old.seat turns.entry.value)
            ≡ flat_map (instance_deeds (executor_tree self.old.executor)) (strip_left strip.entry)
            ++ left_seen turns.entry.value self.old.seat self.new.seat self.new.own
            (place_of self.new.seat turns.entry.value + result.value.done) }
        ensures idle { registers_behind self.new.seat (place_of self.new.seat turns.entry.value
            + result.value.done) ≡ [] }
        ensures printed { printed_behind self.new.seat (place_of self.new.seat turns.entry.value
            + result.value.done)
            ≡ printed_behind self.old.seat (place_of self.old.seat turns.entry.value) }
        ensures output { executor_output self.new.executor ≡ executor_output self.old.executor }
        ensures room { executor_room self.new.executor ≡ executor_room self.old.executor }
        ensures turns { self.new.turns ≡ self.old.turns }
        ensures answered { self.new.answered ≡ self.old.answered }
        ensures legs { self.new.patience.legs ≡ self.old.patience.legs }
        ensures ended { self.new.ended ≡ self.old.ended }
    {
        let from = Snapshot::of(&self.seat);
        let mut deeds = PhaseDeeds::<NoOwn> {
            cells,
            seat: &mut self.seat,
            own: &mut self.own,
            scalars: self.turns.own_cells(),
            by: PhantomData,
            turns: &turns,
            from: &from,
            done: Progress::new(),
        };
        self.executor.repeat(strip, &mut deeds);
        Snapshot::of(&deeds.done)
    }

    // An instance.
    fn work(&mut self, cells: &Cells<'_>, stop: Stop<'a>) -> Option<Leg>
        requires ready { IsWalk self.old }
        requires own { self.old.seat.home ≡ cells.now }
        requires next { ComesNext self.old (Next.Work stop) }
        ensures goes { GoesTo self.old self.new }
        ensures tells { TurnTells self.old self.new result }
    {
        if self.turns.own_cells().is_empty() {
            self.work_by::<NoOwn>(cells, stop)
        } else {
            self.work_by::<SomeOwn>(cells, stop)
        }
    }

    // The same by a way to look for own scalars that fits the phase.
    fn work_by<P: Places>(&mut self, cells: &Cells<'_>, stop: Stop<'a>) -> Option<Leg>
        requires ready { IsWalk self.old }
        requires own { self.old.seat.home ≡ cells.now }
        requires next { ComesNext self.old (Next.Work stop) }
        requires fits { P.Fits (turns_own self.old.turns)
            (turns_tree self.old.turns) (turns_plan self.old.turns) (turns_place self.old.turns) }
        ensures goes { GoesTo self.old self.new }
        ensures tells { TurnTells self.old self.new result }
    {
        laws_of(cells);
        self.execute::<P>(cells, stop);
        self.turns.pass(Next::Work(stop));
        None
    }

    // The instance at a stop, which comes next; how many deeds that was.
    fn execute<P: Places>(&mut self, cells: &Cells<'_>, stop: Stop<'a>) -> Snapshot<Progress>
        requires own { self.old.seat.home ≡ cells.now }
        requires worker { self.old.seat.processor < (protocol_at self.old.seat.home).workers }
        requires finds { FindsOwn (tree_at self.old.seat.home) (plan_at self.old.seat.home)
            (turns_place self.old.turns) (P.Fits (turns_own self.old.turns)) }
        requires can { CanExecute self.old.executor }
        requires begins { Begins (executor_tree self.old.executor)
            (turns_rounds self.old.turns) stop
            (left_seen self.old.turns self.old.seat self.old.seat self.old.own
            (walk_place self.old)) }
        requires idle { registers_behind self.old.seat (walk_place self.old) ≡ [] }
        requires output { executor_output self.old.executor
            ≡ printed_behind self.old.seat (walk_place self.old) }
        requires room { length (executor_output self.old.executor) + visit_room
            (executor_tree self.old.executor) (visit_at (executor_tree self.old.executor)
            (turns_rounds self.old.turns) stop) ≤ executor_room self.old.executor }
        ensures home { self.new.seat.home ≡ self.old.seat.home }
        ensures processor { self.new.seat.processor ≡ self.old.seat.processor }
        ensures can { CanExecute self.new.executor }
        ensures program { executor_tree self.new.executor ≡ executor_tree self.old.executor }
        ensures left { (b : Begins (executor_tree self.old.executor)
            (turns_rounds self.old.turns) stop.entry
            (left_seen self.old.turns self.old.seat self.old.seat self.old.own
            (walk_place self.old)))
            → left_seen self.old.turns self.old.seat self.new.seat self.new.own
            (place_of self.new.seat self.old.turns + result.value.done) ≡ b.rest }
        ensures idle { registers_behind self.new.seat (place_of self.new.seat self.old.turns
            + result.value.done) ≡ [] }
        ensures output { executor_output self.new.executor
            ≡ printed_behind self.new.seat (place_of self.new.seat self.old.turns
            + result.value.done) }
        ensures room { executor_room self.old.executor ≤ executor_room self.new.executor }
        ensures grown { length (executor_output self.new.executor) ≤ length
            (executor_output self.old.executor) + visit_room (executor_tree self.old.executor)
            (visit_at (executor_tree self.old.executor) (turns_rounds self.old.turns) stop.entry) }
        ensures turns { self.new.turns ≡ self.old.turns }
        ensures answered { self.new.answered ≡ self.old.answered }
        ensures legs { self.new.patience.legs ≡ self.old.patience.legs }
        ensures ended { self.new.ended ≡ self.old.ended }
    {
        let turns = Snapshot::of(&self.turns);
        let from = Snapshot::of(&self.seat);
        let mut deeds = PhaseDeeds::<P> {
            cells,
            seat: &mut self.seat,
            own: &mut self.own,
            scalars: self.turns.own_cells(),
            by: PhantomData,
            turns: &turns,
            from: &from,
            done: Progress::new(),
        };
        self.executor.execute(stop, self.turns.path(), &mut deeds);
        Snapshot::of(&deeds.done)
    }

    // A post.
    fn post(&mut self, cells: &Cells<'_>, number: u64) -> Option<Leg>
        requires ready { IsWalk self.old }
        requires own { self.old.seat.home ≡ cells.now }
        requires next { ComesNext self.old (Next.Post number) }
        ensures goes { GoesTo self.old self.new }
        ensures tells { TurnTells self.old self.new result }
    {
        match self.turns.boundary() {
            Boundary::Counters => self.post_counter(cells, number),
            Boundary::Barrier => self.arrive(cells, number),
            Boundary::Join => self.join(cells, number),
        }
    }

    // A post on the own counter.
    fn post_counter(&mut self, cells: &Cells<'_>, number: u64) -> Option<Leg>
        requires ready { IsWalk self.old }
        requires own { self.old.seat.home ≡ cells.now }
        requires next { ComesNext self.old (Next.Post number) }
        requires boundary { boundary_at (turns_tree self.old.turns)
            (turns_plan self.old.turns) number ≡ Boundary.Counters }
        ensures goes { GoesTo self.old self.new }
        ensures tells { TurnTells self.old self.new result }
    {
        laws_of(cells);
        cells.post(&mut self.seat, number);
        self.turns.pass(Next::Post(number));
        None
    }

    // An arrival at a barrier.
    fn arrive(&mut self, cells: &Cells<'_>, number: u64) -> Option<Leg>
        requires ready { IsWalk self.old }
        requires own { self.old.seat.home ≡ cells.now }
        requires next { ComesNext self.old (Next.Post number) }
        requires boundary { boundary_at (turns_tree self.old.turns)
            (turns_plan self.old.turns) number ≡ Boundary.Barrier }
        ensures goes { GoesTo self.old self.new }
        ensures tells { TurnTells self.old self.new result }
    {
        laws_of(cells);
        let phase = self.turns.phase();
        cells.arrive(&mut self.seat, phase);
        self.turns.pass(Next::Post(number));
        None
    }

    // A post at a Join, where the leg ends if it is the first that comes to it and there are
    // others, who are awaited next.
    fn join(&mut self, cells: &Cells<'_>, number: u64) -> Option<Leg>
        requires ready { IsWalk self.old }
        requires own { self.old.seat.home ≡ cells.now }
        requires next { ComesNext self.old (Next.Post number) }
        requires boundary { boundary_at (turns_tree self.old.turns)
            (turns_plan self.old.turns) number ≡ Boundary.Join }
        ensures goes { GoesTo self.old self.new }
        ensures tells { TurnTells self.old self.new result }
    {
        laws_of(cells);
        let phase = self.turns.phase();
        cells.post(&mut self.seat, number);
        self.turns.pass(Next::Post(number));
        if phase <= self.answered {
            return None;
        }
        self.answered = phase;
        if self.turns.workers() < 2 {
            return None;
        }
        Some(Leg::Joined(phase))
    }

    // The own signal.
    fn signal(&mut self, cells: &Cells<'_>, number: u64) -> Option<Leg>
        requires ready { IsWalk self.old }
        requires own { self.old.seat.home ≡ cells.now }
        requires next { ComesNext self.old (Next.Signal number) }
        ensures goes { GoesTo self.old self.new }
        ensures tells { TurnTells self.old self.new result }
    {
        laws_of(cells);
        cells.signal(&mut self.seat, number);
        self.turns.pass(Next::Signal(number));
        None
    }

    // An await of a counter, or at a barrier all of them.
    fn wait(&mut self, cells: &Cells<'_>, on: u32, wanted: u64) -> Option<Leg>
        requires ready { IsWalk self.old }
        requires own { self.old.seat.home ≡ cells.now }
        requires next { ComesNext self.old (Next.Await on wanted) }
        ensures goes { GoesTo self.old self.new }
        ensures tells { TurnTells self.old self.new result }
    {
        match self.turns.boundary() {
            Boundary::Barrier => self.wait_for_all(cells, Awaited { on, wanted }),
            Boundary::Counters | Boundary::Join => self.wait_for(cells, on, wanted),
        }
    }

    // Polls until the counter of another has come to a number, or patience is at its end.
    fn wait_for(&mut self, cells: &Cells<'_>, on: u32, wanted: u64) -> Option<Leg>
        requires ready { IsWalk self.old }
        requires own { self.old.seat.home ≡ cells.now }
        requires next { ComesNext self.old (Next.Await on wanted) }
        requires boundary { boundary_at (turns_tree self.old.turns)
            (turns_plan self.old.turns) wanted ≢ Boundary.Barrier }
        ensures goes { GoesTo self.old self.new }
        ensures tells { TurnTells self.old self.new result }
    {
        laws_of(cells);
        match poll_until(cells, &mut self.seat, Awaited { on, wanted }, self.patience) {
            Ok(misses) => {
                self.patience = self.patience.behind_wait(misses);
                self.turns.pass(Next::Await { on, wanted });
                None
            }
            Err(seen) => {
                self.patience = self.patience.behind_leg();
                Some(Leg::Waiting { on, wanted, seen })
            }
        }
    }

    // Polls until all have arrived at a barrier, where this is awaited there, or patience is at its
    // end.
    fn wait_for_all(&mut self, cells: &Cells<'_>, awaited: Awaited) -> Option<Leg>
        requires ready { IsWalk self.old }
        requires own { self.old.seat.home ≡ cells.now }
        requires next { ComesNext self.old (Next.Await awaited.on awaited.wanted) }
        requires boundary { boundary_at (turns_tree self.old.turns)
            (turns_plan self.old.turns) awaited.wanted ≡ Boundary.Barrier }
        ensures goes { GoesTo self.old self.new }
        ensures tells { TurnTells self.old self.new result }
    {
        laws_of(cells);
        let phase = self.turns.phase();
        let wanted = self.seat.all_arrivals();
        match poll_arrivals_until(cells, &mut self.seat, phase, self.patience) {
            Ok(misses) => {
                self.patience = self.patience.behind_wait(misses);
                self.turns.pass_awaits();
                None
            }
            Err(seen) => {
                self.patience = self.patience.behind_leg();
                let on = self.turns.workers();
                Some(Leg::Waiting { on, wanted, seen })
            }
        }
    }

    // Polls until the signal of another has come to a number, or patience is at its end.
    fn wait_for_signal(&mut self, cells: &Cells<'_>, on: u32, wanted: u64) -> Option<Leg>
        requires ready { IsWalk self.old }
        requires own { self.old.seat.home ≡ cells.now }
        requires next { ComesNext self.old (Next.AwaitSignal on wanted) }
        ensures goes { GoesTo self.old self.new }
        ensures tells { TurnTells self.old self.new result }
    {
        laws_of(cells);
        match poll_signal_until(cells, &mut self.seat, Awaited { on, wanted }, self.patience) {
            Ok(misses) => {
                self.patience = self.patience.behind_wait(misses);
                self.turns.pass(Next::AwaitSignal { on, wanted });
                None
            }
            Err(seen) => {
                self.patience = self.patience.behind_leg();
                Some(Leg::Waiting { on, wanted, seen })
            }
        }
    }

    // A closing: the cell that all share of an own scalar gets what the own one holds.
    fn close(&mut self, cells: &Cells<'_>, place: usize) -> Option<Leg>
        requires ready { IsWalk self.old }
        requires own { self.old.seat.home ≡ cells.now }
        requires next { ComesNext self.old (Next.Close place) }
        ensures goes { GoesTo self.old self.new }
        ensures tells { TurnTells self.old self.new result }
    {
        if is_sum_place(place) {
            self.close_sum(cells, place)
        } else {
            self.close_private(cells, place)
        }
    }

    // A private scalar's last value is stored there.
    fn close_private(&mut self, cells: &Cells<'_>, place: usize) -> Option<Leg>
        requires ready { IsWalk self.old }
        requires own { self.old.seat.home ≡ cells.now }
        requires next { ComesNext self.old (Next.Close place) }
        requires kind { nat_le 16 place ≡ false }
        ensures goes { GoesTo self.old self.new }
        ensures tells { TurnTells self.old self.new result }
    {
        laws_of(cells);
        let cell = self.turns.own_cells().cell(place);
        cells.store(&mut self.seat, cell, self.own[place]);
        self.turns.pass(Next::Close(place));
        None
    }

    // A total is added there, and begins again with 0.
    fn close_sum(&mut self, cells: &Cells<'_>, place: usize) -> Option<Leg>
        requires ready { IsWalk self.old }
        requires own { self.old.seat.home ≡ cells.now }
        requires next { ComesNext self.old (Next.Close place) }
        requires kind { nat_le 16 place ≡ true }
        ensures goes { GoesTo self.old self.new }
        ensures tells { TurnTells self.old self.new result }
    {
        laws_of(cells);
        let cell = self.turns.own_cells().cell(place);
        cells.add(&mut self.seat, cell, self.own[place]);
        self.own[place] = 0;
        self.turns.pass(Next::Close(place));
        None
    }
}
