// What a processor does, turn by turn.

ghost use Rattle.std.specs.Prelude.{◌≡◌, ◌<◌, ℕ, List, [], slice_get};
ghost use Rattle.nest_tree.specs.View.{tree_of};
ghost use Rattle.nest_walk.specs.RoundsOf.{rounds_of};
ghost use Rattle.owner_partition.specs.Phases.{phases as phases_of};
ghost use Rattle.sync_plan.specs.Fit.{IsFit};
ghost use Rattle.turns.specs.CounterTurns.{counter_turns};
ghost use Rattle.std.specs.Prelude.{MatchOption, Bool, ◌-◌, ◌==◌, not, length};
ghost use Rattle.std.specs.List.{list_any};
ghost use Rattle.sync_plan.specs.Own.{own_loop};
ghost use Rattle.sync_plan.specs.Shape.{static_phases};
ghost use Rattle.own_cells.specs.OwnCells.{AreFew, AreOwnCells};
ghost use Rattle.turns.specs.Turns.{gathered, has_own, has_signals_at, is_watched};
ghost use Rattle.sync_plan.specs.declared.plan.Plan.{Plan};
ghost use Rattle.turns.specs.TurnsLeft.{IsPlaced};

use crate::counters::{Boundary, CounterNext, CounterTurns};
use crate::pending::{first_pending, mark_first, mark_place};
use nest_tree::{Item, Nest, Program};
use nest_walk::{Path, Stop, Strip};
use own_cells::{OWN_PLACES, OwnCells, is_final};
use owner_partition::{Privates, StaticPhase};
use spmd_model::Style;
use spmd_model::rounds::{awaited_in_round, rounds_of};
use sync_plan::Plan;

/// What a processor does next.
#[derive(Clone, Copy)]
pub enum Next<'a> {
    /// It sets its own counter to this number.
    Post(u64),
    /// It awaits that the counter of another is at least a number.
    Await { on: u32, wanted: u64 },
    /// It sets its own signal to this number.
    Signal(u64),
    /// It awaits that the signal of another is at least a number.
    AwaitSignal { on: u32, wanted: u64 },
    /// It executes an instance, with the loops round it that the cursor shows.
    Work(Stop<'a>),
    /// It closes the own scalar with this place: the shared cell gets what its own cell holds.
    Close(usize),
    /// Nothing is left.
    End,
}

/// What a worker comes to.
#[derive(Clone, Copy)]
pub enum NextOrPhase<'a> {
    /// A phase begins, with this number, from 1, of which the processor may own no instance. The
    /// rounds of a barrier by signals in front of its instances come behind.
    Phase(u64),
    /// This comes next.
    Turn(Next<'a>),
}

// No static phase has this place.
const NO_PHASE: u32 = u32::MAX;

/// What is left of a processor's turns, in a style: the posts and awaits of each boundary, or the
/// rounds of its signals; the instances that it owns; and behind those of a phase its closings. It
/// takes no memory.
#[derive(Drop)]
pub struct Turns<'a> {
    program: &'a Program,
    plan: &'a Plan,
    processor: u32,
    style: Style,
    // those by counters alone, without closings
    counters: CounterTurns<'a>,
    // whether some phase has own scalars, and whether each phase is looked at as it begins
    has_own: bool,
    is_watched: bool,
    // the place of the static phase of the phase that has begun
    place: u32,
    // the own scalars of that, and its loop, where it has private ones
    own: OwnCells,
    nest: Option<&'a Nest>,
    // which own scalars are to be closed behind the instances, by their places
    pending: [bool; OWN_PLACES],
    // how many barriers by signals have begun; of the last one the number of the first round, how
    // many half rounds are done, and how many there are
    barriers: u64,
    first: u64,
    step: u32,
    steps: u32,
}

impl<'a> Turns<'a> {
    ghost use Rattle.std.specs.Prelude.{◌∷◌, ◌++◌, suc, true, false, map, IfSome, slice_set};
    ghost use Rattle.std.specs.List.{range_with_len};
    ghost use Rattle.nest_walk.specs.Strips.{strip_left, strip_tree};
    ghost use Rattle.spmd_model.specs.MachineDeeds.{HasNoOwn};
    ghost use Rattle.spmd_model.specs.Timelines.{counter};
    ghost use Rattle.spmd_model.specs.declared.style.Style.TheVariants.{Arrive};
    ghost use Rattle.turns.specs.CounterTurns.{CounterTurn, boundary_at, works};
    ghost use Rattle.turns.specs.CountersLeft.{counters_boundary, counters_left, counters_plan, counters_tree};
    ghost use Rattle.instance_runs.specs.Stops.{IsInstance};
    ghost use Rattle.turns.specs.Turns.{Turn, runs, waits, behind, first_standing, is_signalled, places_pending, turns_by};
    ghost use Rattle.turns.specs.TurnsLeft.{AreSound, BeginsNext, EndsAlike, EndsPlainly, HasLooked, IsAtCounter, IsBeforeBeginning, IsBeforeCounter, IsCounterOf, IsNextOrPhase, IsOpen, IsSameRun, IsSilent, IsNext, IsTurn, LooksPlainly, PassesPlainly, beginnings_left, standing, turns_left, turns_own, turns_place, turns_plan, turns_processor, turns_rounds, turns_style, turns_tree};

    /// All turns of a processor.
    pub fn new(program: &'a Program, plan: &'a Plan, style: Style, processor: u32) -> Self
        requires fits { IsFit (tree_of program.now) plan.now }
        requires worker { processor < plan.now.workers }
        ensures sound { AreSound result }
        ensures turns { turns_left result
            ≡ turns_by style (tree_of program.now) plan.now processor first_standing
            (counter_turns (tree_of program.now) plan.now processor 1
            (phases_of (tree_of program.now) plan.now.cut.marks)) }
        ensures program { turns_tree result ≡ tree_of program.now }
        ensures plan { turns_plan result ≡ plan.now }
        ensures processor { turns_processor result ≡ processor }
        ensures style { turns_style result ≡ style }
        ensures begins { beginnings_left result
            ≡ range_with_len 1 (length (phases_of (tree_of program.now) plan.now.cut.marks)) }
        ensures plain { counters_left result.counters
            ≡ counter_turns (tree_of program.now) plan.now processor 1
            (phases_of (tree_of program.now) plan.now.cut.marks) }
    {
        let steps = rounds_of(plan.workers) * 2;
        let has_own = has_own(plan);
        Turns {
            program,
            plan,
            processor,
            style,
            counters: CounterTurns::new(program, plan, processor),
            has_own,
            is_watched: is_watched(style, has_own),
            place: NO_PHASE,
            own: OwnCells::none(),
            nest: None,
            pending: [false; OWN_PLACES],
            barriers: 0,
            first: 1,
            step: steps,
            steps,
        }
    }

    /// The loops round the instance that comes next, with their values.
    pub fn path(&self) -> &Path
        ensures { rounds_of result.now ≡ turns_rounds self.now }
    {
        self.counters.path()
    }

    /// The own scalars of the phase.
    pub fn own_cells(&self) -> &OwnCells
        ensures { result.now ≡ turns_own self.now }
    {
        &self.own
    }

    /// Whether some phase has own scalars.
    pub fn has_own(&self) -> bool
        requires { AreSound self.now }
        ensures { result ≡ has_own (turns_plan self.now) }
    {
        self.has_own
    }

    /// How many processors there are.
    pub fn workers(&self) -> u32
        ensures { result ≡ (turns_plan self.now).workers }
    {
        self.plan.workers
    }

    /// How the boundary is passed whose post or await of a counter comes next.
    pub fn boundary(&self) -> Boundary
        requires { AreSound self.now }
        ensures { (number : ℕ) → IsAtCounter self.now number
            → result ≡ boundary_at (turns_tree self.now) (turns_plan self.now) number }
    {
        self.counters.boundary()
    }

    /// The phase, from 1, in front of which the boundary stands whose post or await of a counter
    /// comes next.
    pub fn phase(&self) -> u64
        requires sound { AreSound self.now }
        requires next { (number : ℕ) × IsAtCounter self.now number }
        ensures { (number : ℕ) → IsAtCounter self.now number → result ≡ suc number }
    {
        self.counters.phase()
    }

    /// What comes next. Nothing of what is left changes.
    pub fn peek(&mut self) -> Next<'a>
        requires { AreSound self.old }
        ensures sound { AreSound self.new }
        ensures left { turns_left self.new ≡ turns_left self.old }
        ensures next { IsNext self.new result }
        ensures same { IsSameRun self.old self.new }
    {
        if self.is_watched {
            self.peek_watched()
        } else {
            self.peek_plain()
        }
    }

    /// What comes next, or the phase that begins in front of it, which is told once. Nothing of what
    /// is left changes.
    pub fn peek_or_begin(&mut self) -> NextOrPhase<'a>
        requires { AreSound self.old }
        ensures sound { AreSound self.new }
        ensures left { turns_left self.new ≡ turns_left self.old }
        ensures next { IsNextOrPhase self.old self.new result }
        ensures plain { turns_style self.old ≡ Arrive → LooksPlainly self.old self.new result }
        ensures same { IsSameRun self.old self.new }
    {
        if self.is_watched {
            self.begin_watched()
        } else {
            self.begin_plain()
        }
    }

    // The same where no phase has own scalars, and barriers are passed by counters.
    fn begin_plain(&mut self) -> NextOrPhase<'a>
        requires sound { AreSound self.old }
        requires plain { self.old.is_watched ≡ false }
        ensures sound { AreSound self.new }
        ensures left { turns_left self.new ≡ turns_left self.old }
        ensures next { IsNextOrPhase self.old self.new result }
        ensures plain { turns_style self.old ≡ Arrive → LooksPlainly self.old self.new result }
        ensures same { IsSameRun self.old self.new }
    {
        let next = self.look();
        if let CounterNext::Phase(phase) = next {
            self.counters.pass();
            return NextOrPhase::Phase(phase);
        }
        NextOrPhase::Turn(self.shown(next))
    }

    // And where each phase is looked at as it begins.
    fn begin_watched(&mut self) -> NextOrPhase<'a>
        requires sound { AreSound self.old }
        requires watched { self.old.is_watched ≡ true }
        ensures sound { AreSound self.new }
        ensures left { turns_left self.new ≡ turns_left self.old }
        ensures next { IsNextOrPhase self.old self.new result }
        ensures plain { turns_style self.old ≡ Arrive → LooksPlainly self.old self.new result }
        ensures same { IsSameRun self.old self.new }
    {
        let mut next = self.look();
        while self.is_silent(next) {
            self.pass_silent(next);
            if let CounterNext::Phase(phase) = next {
                return NextOrPhase::Phase(phase);
            }
            next = self.look();
        }
        NextOrPhase::Turn(self.shown(next))
    }

    // What comes next where no phase has own scalars, and barriers are passed by counters.
    fn peek_plain(&mut self) -> Next<'a>
        requires sound { AreSound self.old }
        requires plain { self.old.is_watched ≡ false }
        ensures sound { AreSound self.new }
        ensures left { turns_left self.new ≡ turns_left self.old }
        ensures next { IsNext self.new result }
        ensures same { IsSameRun self.old self.new }
    {
        match self.counters.peek_act() {
            CounterNext::Work(stop) => Next::Work(stop),
            CounterNext::Post(number) => Next::Post(number),
            CounterNext::Await { on, wanted } => Next::Await { on, wanted },
            CounterNext::Phase(_) => unreachable!(),
            CounterNext::End => Next::End,
        }
    }

    // And where each phase is looked at as it begins.
    fn peek_watched(&mut self) -> Next<'a>
        requires sound { AreSound self.old }
        requires watched { self.old.is_watched ≡ true }
        ensures sound { AreSound self.new }
        ensures left { turns_left self.new ≡ turns_left self.old }
        ensures next { IsNext self.new result }
        ensures same { IsSameRun self.old self.new }
    {
        let mut next = self.look();
        while self.is_silent(next) {
            self.pass_silent(next);
            next = self.look();
        }
        self.shown(next)
    }

    // What comes next of the counter turns.
    fn look(&mut self) -> CounterNext<'a>
        requires sound { AreSound self.old }
        ensures sound { AreSound self.new }
        ensures looked { HasLooked self.new result }
        ensures left { turns_left self.new ≡ turns_left self.old }
        ensures plain { counters_left self.new.counters ≡ counters_left self.old.counters }
        ensures pending { self.new.pending ≡ self.old.pending }
        ensures watched { self.new.is_watched ≡ self.old.is_watched }
        ensures same { IsSameRun self.old self.new }
    {
        self.counters.peek()
    }

    // Whether a counter turn that comes next is nothing here: a phase that begins, or of the counters
    // of a barrier that is passed by signals.
    fn is_silent(&self, next: CounterNext<'a>) -> bool
        requires sound { AreSound self.now }
        requires looked { HasLooked self.now next }
        ensures silent { result ≡ true → IsSilent self.now next.entry }
        ensures open { result ≡ false → IsOpen self.now next.entry }
    {
        if let CounterNext::Work(_) = next {
            return false;
        }
        if self.step < self.steps || self.first_to_close().is_some() {
            return false;
        }
        match next {
            CounterNext::Phase(_) => true,
            CounterNext::Post(_) | CounterNext::Await { .. } => self.is_signalled(),
            CounterNext::Work(_) | CounterNext::End => false,
        }
    }

    // Whether the boundary that comes next is passed by signals.
    fn is_signalled(&self) -> bool
        requires sound { AreSound self.now }
        ensures { (number : ℕ)
            → counters_boundary self.now.counters ≡ boundary_at (counters_tree self.now.counters)
            (counters_plan self.now.counters) number
            → result ≡ is_signalled self.now.style (turns_tree self.now)
            (turns_plan self.now) number }
    {
        match self.style {
            Style::Arrive => false,
            Style::Dissemination => is_gathered(self.counters.boundary()),
        }
    }

    // Past such a counter turn.
    fn pass_silent(&mut self, next: CounterNext<'a>)
        requires sound { AreSound self.old }
        requires watched { self.old.is_watched ≡ true }
        requires looked { HasLooked self.old next }
        requires silent { IsSilent self.old next }
        ensures sound { AreSound self.new }
        ensures left { turns_left self.new ≡ turns_left self.old }
        ensures plain { (t : CounterTurn)
            × (counters_left self.old.counters ≡ t ∷ counters_left self.new.counters) }
        ensures nearer { length (counters_left self.new.counters)
            < length (counters_left self.old.counters) }
        ensures watched { self.new.is_watched ≡ true }
        ensures same { IsSameRun self.old self.new }
    {
        match next {
            CounterNext::Phase(_) => self.pass_beginning(),
            _ => self.pass_counters(),
        }
    }

    // Past the post or the await of a counter.
    fn pass_counters(&mut self)
        requires sound { AreSound self.old }
        requires next { IsBeforeCounter self.old }
        ensures sound { AreSound self.new }
        ensures silent { (number : ℕ) → IsCounterOf (counters_left self.old.counters) number
            → is_signalled self.old.style (turns_tree self.old) (turns_plan self.old) number
            ≡ true → turns_left self.new ≡ turns_left self.old }
        ensures passed { (number : ℕ) → IsCounterOf (counters_left self.old.counters) number
            → is_signalled self.old.style (turns_tree self.old) (turns_plan self.old) number
            ≡ false → (t : Turn) × (turns_left self.old ≡ t ∷ turns_left self.new) }
        ensures plain { (t : CounterTurn)
            × (counters_left self.old.counters ≡ t ∷ counters_left self.new.counters) }
        ensures nearer { length (counters_left self.new.counters)
            < length (counters_left self.old.counters) }
        ensures watched { self.new.is_watched ≡ self.old.is_watched }
        ensures same { IsSameRun self.old self.new }
    {
        self.counters.pass();
        self.pending = [false; OWN_PLACES];
    }

    // Past the beginning of a phase.
    fn pass_beginning(&mut self)
        requires sound { AreSound self.old }
        requires watched { self.old.is_watched ≡ true }
        requires begins { IsBeforeBeginning self.old }
        ensures sound { AreSound self.new }
        ensures left { turns_left self.new ≡ turns_left self.old }
        ensures plain { (t : CounterTurn)
            × (counters_left self.old.counters ≡ t ∷ counters_left self.new.counters) }
        ensures nearer { length (counters_left self.new.counters)
            < length (counters_left self.old.counters) }
        ensures watched { self.new.is_watched ≡ true }
        ensures same { IsSameRun self.old self.new }
    {
        let place = self.counters.place();
        let by_signals = has_signals(self.style, self.plan, place);
        let (own, nest) = own_at(self.program, self.plan, self.has_own, place);
        self.counters.pass();
        self.place = place;
        self.own = own;
        self.nest = nest;
        self.pending = [false; OWN_PLACES];
        self.first = self.barriers * u64::from(self.steps / 2) + 1;
        self.step = if by_signals { 0 } else { self.steps };
        self.barriers += u64::from(by_signals);
    }

    // What comes next, where this counter turn does and isn't nothing here.
    fn shown(&self, next: CounterNext<'a>) -> Next<'a>
        requires sound { AreSound self.now }
        requires looked { HasLooked self.now next }
        requires open { IsOpen self.now next }
        ensures next { IsNext self.now result }
        ensures end { EndsPlainly self.now result }
    {
        if self.step < self.steps {
            return self.round();
        }
        if let CounterNext::Work(stop) = next {
            return Next::Work(stop);
        }
        if let Some(place) = self.first_to_close() {
            return Next::Close(place);
        }
        match next {
            CounterNext::Post(number) => Next::Post(number),
            CounterNext::Await { on, wanted } => Next::Await { on, wanted },
            CounterNext::Phase(_) | CounterNext::Work(_) => unreachable!(),
            CounterNext::End => Next::End,
        }
    }

    // The place of the own scalar that is to be closed first.
    fn first_to_close(&self) -> Option<usize>
        requires { AreSound self.now }
        ensures first { MatchOption result (places_pending self.now.pending ≡ [])
            (λ k. places_pending self.now.pending ≡ k
            ∷ places_pending (slice_set self.now.pending k false)) }
        ensures small { IfSome result (λ k. k < 32) }
    {
        if self.is_watched {
            first_pending(&self.pending)
        } else {
            None
        }
    }

    // The half round that comes next.
    fn round(&self) -> Next<'a>
        requires sound { AreSound self.now }
        requires some { self.now.step < self.now.steps }
        ensures next { IsNext self.now result }
        ensures end { EndsPlainly self.now result }
    {
        let round = self.step / 2;
        let number = self.first + u64::from(round);
        if self.step % 2 == 0 {
            Next::Signal(number)
        } else {
            Next::AwaitSignal {
                on: awaited_in_round(self.plan.workers, round, self.processor),
                wanted: number,
            }
        }
    }

    /// Past what comes next, where something does.
    #[inline(always)]
    pub fn pass(&mut self, next: Next<'a>)
        requires sound { AreSound self.old }
        requires next { IsNext self.old next }
        requires some { IsTurn next }
        ensures sound { AreSound self.new }
        ensures passed { (t : Turn) × (turns_left self.old ≡ t ∷ turns_left self.new) }
        ensures begins { beginnings_left self.new ≡ beginnings_left self.old }
        ensures plain { PassesPlainly self.old self.new next.entry }
        ensures same { IsSameRun self.old self.new }
    {
        match next {
            Next::Signal(_) | Next::AwaitSignal { .. } => self.step += 1,
            Next::Close(place) => self.pending[place] = false,
            Next::Work(stop) => self.leave(stop),
            Next::Post(_) | Next::Await { .. } => self.pass_counters(),
            Next::End => {}
        }
    }

    /// Past all awaits of counters at a boundary at once, where one of them comes next: the phase
    /// begins next.
    pub fn pass_awaits(&mut self)
        requires sound { AreSound self.old }
        requires next { (on wanted : ℕ) × IsNext self.old (Next.Await on wanted) }
        ensures sound { AreSound self.new }
        ensures passed { (number : ℕ) × (awaited : List ℕ)
            × (turns_left self.old ≡ map (λ q. waits counter q number) awaited
            ++ turns_left self.new) }
        ensures phase { (on wanted : ℕ) → IsNext self.old (Next.Await on wanted)
            → BeginsNext self.new (suc wanted) }
        ensures begins { beginnings_left self.new ≡ beginnings_left self.old }
        ensures same { IsSameRun self.old self.new }
    {
        self.counters.pass_awaits();
        self.pending = [false; OWN_PLACES];
    }

    /// The trips that are left of a loop round one assignment, in a phase without own scalars, where
    /// the next turn is the first of them and hasn't been looked at: a strip's instances come next,
    /// and what is behind them is left.
    #[inline(always)]
    pub fn strip(&mut self) -> Option<Strip<'a>>
        requires { AreSound self.old }
        ensures sound { AreSound self.new }
        ensures left { MatchOption result (turns_left self.new ≡ turns_left self.old)
            (λ s. turns_left self.old ≡ map (runs (turns_place self.old)) (strip_left s)
            ++ turns_left self.new) }
        ensures some { IfSome result (λ s. 0 < length (strip_left s)) }
        ensures own { IfSome result (λ s. HasNoOwn (turns_tree self.old) (turns_plan self.old)
            (turns_place self.old)) }
        ensures tree { IfSome result (λ s. strip_tree s ≡ turns_tree self.new) }
        ensures begins { beginnings_left self.new ≡ beginnings_left self.old }
        ensures plain { MatchOption result
            (counters_left self.new.counters ≡ counters_left self.old.counters)
            (λ s. counters_left self.old.counters ≡ map works (strip_left s)
            ++ counters_left self.new.counters) }
        ensures same { IsSameRun self.old self.new }
    {
        if self.step < self.steps || !self.own.is_empty() {
            return None;
        }
        self.counters.strip()
    }

    // Past an instance, which leaves own scalars to be closed.
    #[inline(always)]
    fn leave(&mut self, stop: Stop<'a>)
        requires sound { AreSound self.old }
        requires next { IsNext self.old (Next.Work stop) }
        ensures sound { AreSound self.new }
        ensures passed { (t : Turn) × (turns_left self.old ≡ t ∷ turns_left self.new) }
        ensures plain { (t : CounterTurn)
            × (counters_left self.old.counters ≡ t ∷ counters_left self.new.counters) }
        ensures same { IsSameRun self.old self.new }
    {
        self.mark(stop);
        self.counters.pass();
    }

    // Marks what is to be closed behind the instance that comes next.
    fn mark(&mut self, stop: Stop<'a>)
        requires sound { AreSound self.old }
        requires next { IsNext self.old (Next.Work stop) }
        ensures marked { (at : IsInstance (counters_tree self.old.counters)
            (turns_rounds self.old) stop.entry)
            → self.new.pending
            ≡ (behind (turns_tree self.old) (turns_plan self.old)
            (standing self.old) at.instance).pending }
        ensures same { self.new ≡ record self.old { pending = self.new.pending } }
    {
        if !self.has_own {
            return;
        }
        let place = self.own.assigned_by(stop.item);
        let is_last = self.is_in_last_trip(stop);
        mark_place(&mut self.pending, place);
        mark_first(&mut self.pending, self.own.privates(), is_last);
    }

    // Whether the instance that comes next is one of its loop's last trip, where that has private
    // scalars.
    fn is_in_last_trip(&self, stop: Stop<'a>) -> bool
        requires sound { AreSound self.now }
        requires next { IsNext self.now (Next.Work stop) }
        ensures { (pending : List Bool)
            → (at : IsInstance (counters_tree self.now.counters) (turns_rounds self.now) stop.entry)
            → EndsAlike self.now pending result at.instance.loops }
    {
        let Some(nest) = self.nest else {
            return false;
        };
        self.own.privates() > 0 && is_final(self.program, self.counters.path(), nest)
    }
}

// Whether all processors of two or more wait for all.
fn is_gathered(boundary: Boundary) -> bool
    ensures { result ≡ gathered boundary }
{
    match boundary {
        Boundary::Barrier => true,
        Boundary::Counters | Boundary::Join => false,
    }
}

// Whether signals stand in front of the phases of a static phase.
fn has_signals(style: Style, plan: &Plan, place: u32) -> bool
    ensures { result ≡ has_signals_at style plan.now place }
{
    match style {
        Style::Arrive => false,
        Style::Dissemination => match plan.kinds.as_slice().get(place.saturating_sub(1) as usize) {
            Some(kind) => kind.is_barrier(),
            None => false,
        },
    }
}

// The own scalars of a static phase, and its loop, if it is one.
fn own_at<'a>(
    program: &'a Program,
    plan: &Plan,
    is_some: bool,
    place: u32,
) -> (OwnCells, Option<&'a Nest>)
    requires few { AreFew (tree_of program.now) (own_loop (tree_of program.now) plan.now place) }
    requires has { is_some ≡ has_own plan.now }
    ensures cells { AreOwnCells (tree_of program.now)
        (own_loop (tree_of program.now) plan.now place) result.0 }
    ensures nest { MatchOption result.1 ((own_loop (tree_of program.now) plan.now place).privates
        ≡ []) (λ n. IsPlaced (slice_get (static_phases (tree_of program.now) plan.now.cut.marks)
        (place - 1)) n.now) }
{
    if !is_some {
        return (OwnCells::none(), None);
    }
    let Some(text) = StaticPhase::at(program, &plan.cut, place) else {
        return (OwnCells::none(), None);
    };
    match text.item {
        Item::Loop(nest) => (OwnCells::of_loop(program, &plan.cut, nest), Some(nest)),
        Item::Assign(..) | Item::Print(..) | Item::Continue(_) => (OwnCells::none(), None),
    }
}

// Whether some phase of a plan has own scalars.
fn has_own(plan: &Plan) -> bool
    ensures { result ≡ has_own plan.now }
{
    plan.cut.has_sum() || has_privates(plan.cut.privates())
}

fn has_privates(lists: &[Privates]) -> bool
    ensures { result ≡ list_any (λ (l : List ℕ). not (length l == 0)) lists.now }
{
    lists.iter().any(|list| !list.as_slice().is_empty())
}

// Whether each phase is looked at as it begins, where some has own scalars or none.
fn is_watched(style: Style, is_some: bool) -> bool
    ensures { (plan : Plan) → is_some ≡ has_own plan → result ≡ is_watched style plan }
{
    match style {
        Style::Arrive => is_some,
        Style::Dissemination => true,
    }
}
