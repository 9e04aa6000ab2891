// What a processor would do by counters alone and without own cells, turn by turn: the turns
// of turns.rt are made of these.

ghost use Rattle.std.specs.Prelude.{◌≡◌, ◌<◌, ◌≤◌, ◌-◌, ℕ, suc, List, [], ◌∷◌, ◌++◌, IfSome, MatchOption, Some, length, map, min, slice_get, true, false};
ghost use Rattle.nest_tree.specs.Limits.{most_work};
ghost use Rattle.nest_tree.specs.Tree.{param_values};
ghost use Rattle.nest_tree.specs.View.{tree_of};
ghost use Rattle.nest_model.specs.Visits.{Visit};
ghost use Rattle.nest_walk.specs.InstancesLeft.{instances_left};
ghost use Rattle.owner_partition.specs.Phases.{phases as phases_of};
ghost use Rattle.owner_partition.specs.PhasesLeft.{phase_last, phases_tree};
ghost use Rattle.sync_plan.specs.Fit.{IsFit};
ghost use Rattle.sync_plan.specs.ProcessorSets.{members};
ghost use Rattle.sync_plan.specs.Waits.{kind_owner, posts_at, waits_for};
ghost use Rattle.turns.specs.CounterTurns.{boundary_by};

use nest_tree::Program;
use nest_walk::{Path, Stop, Strip};
use owner_partition::{OwnStops, Phase, PhaseCursor};
use sync_plan::{Kind, Plan, awaited, is_awaited};

/// How the processors pass a boundary.
#[derive(Clone, Copy, Debug, PartialEq, Eq)]
pub enum Boundary {
    /// Each awaits the counters of those for which it waits, of nobody maybe.
    Counters,
    /// All of two or more wait for all, so that their arrivals can be gathered.
    Barrier,
    /// All wait for all, and the workers end their leg there.
    Join,
}

/// What comes next by counters alone.
#[derive(Clone, Copy)]
pub enum CounterNext<'a> {
    /// It sets its own counter to this number.
    Post(u64),
    /// It awaits that the counter of another is at least a number.
    Await { on: u32, wanted: u64 },
    /// It begins the phase with this number, from 1, of which it may own no instance.
    Phase(u64),
    /// It executes an instance, with the loops round it that the cursor shows.
    Work(Stop<'a>),
    /// Nothing is left.
    End,
}

/// What is left of a processor's turns by counters alone: the posts and awaits of each boundary, and
/// the instances that it owns. It takes no memory.
#[derive(Clone, Copy)]
pub struct CounterTurns<'a> {
    pub(crate) program: &'a Program,
    pub(crate) plan: &'a Plan,
    pub(crate) processor: u32,
    // the phases behind
    pub(crate) phases: PhaseCursor<'a>,
    // the phase's instances that are left
    pub(crate) own: OwnStops<'a>,
    // the boundary's number and how it is passed, whether it is still posted, and who is still
    // awaited there
    pub(crate) number: u64,
    pub(crate) boundary: Boundary,
    pub(crate) posts: bool,
    pub(crate) awaits: u64,
    // the phase that begins behind the boundary, and the place of the static phase that was entered
    pub(crate) begins: Option<u64>,
    pub(crate) place: u32,
    // the instance that comes next
    pub(crate) come: Option<Stop<'a>>,
}

impl<'a> CounterTurns<'a> {
    ghost use Rattle.nest_walk.specs.RoundsOf.{rounds_of};
    ghost use Rattle.nest_walk.specs.Strips.{strip_left, strip_tree};
    ghost use Rattle.turns.specs.CounterTurns.{CounterTurn, awaits, begins, works, counter_turns, without_beginnings};
    ghost use Rattle.turns.specs.CountersLeft.{AreSoundCounters, IsAct, IsBegun, IsCounterNext, StandsAt, at_turn, to_go, counters_boundary, counters_left, counters_plan, counters_processor, counters_rounds, counters_tree};

    // All turns of a processor.
    pub(crate) fn new(program: &'a Program, plan: &'a Plan, processor: u32) -> Self
        requires fits { IsFit (tree_of program.now) plan.now }
        requires worker { processor < plan.now.workers }
        ensures sound { AreSoundCounters result }
        ensures turns { counters_left result
            ≡ counter_turns (tree_of program.now) plan.now processor 1
            (phases_of (tree_of program.now) plan.now.cut.marks) }
        ensures program { counters_tree result ≡ tree_of program.now }
        ensures plan { counters_plan result ≡ plan.now }
        ensures processor { counters_processor result ≡ processor }
        ensures few { length (phases_of (tree_of program.now) plan.now.cut.marks) ≤ most_work }
    {
        CounterTurns {
            program,
            plan,
            processor,
            phases: PhaseCursor::new(program, &plan.cut),
            own: OwnStops::none(program),
            number: 0,
            boundary: Boundary::Counters,
            posts: false,
            awaits: 0,
            begins: None,
            place: 0,
            come: None,
        }
    }

    // The loops round the instance that comes next, with their values.
    pub(crate) fn path(&self) -> &Path
        ensures { rounds_of result.now ≡ counters_rounds self.now }
    {
        self.own.path()
    }

    // How many processors there are.
    pub(crate) fn workers(&self) -> u32
        ensures { result ≡ (counters_plan self.now).workers }
    {
        self.plan.workers
    }

    // How the boundary is passed whose post or await comes next.
    pub(crate) fn boundary(&self) -> Boundary
        ensures { result ≡ counters_boundary self.now }
    {
        self.boundary
    }

    // The phase, from 1, in front of which the boundary stands whose post or await comes next.
    pub(crate) fn phase(&self) -> u64
        requires sound { AreSoundCounters self.now }
        requires some { at_turn self.now ≡ true }
        requires next { (number : ℕ) × StandsAt self.now number }
        ensures { (number : ℕ) → StandsAt self.now number → result ≡ suc number }
    {
        let Some(phase) = self.begins else {
            unreachable!()
        };
        phase
    }

    // The place of the static phase of the phase that begins next.
    pub(crate) fn place(&self) -> u32
        requires sound { AreSoundCounters self.now }
        requires some { at_turn self.now ≡ true }
        requires next { (e : ℕ) × (rest : List CounterTurn)
            × (counters_left self.now ≡ begins e ∷ rest) }
        ensures { (e : ℕ) → (rest : List CounterTurn) → counters_left self.now ≡ begins e ∷ rest
            → IsBegun (counters_tree self.now) (counters_plan self.now) result (Some e) }
    {
        self.place
    }

    // What comes next. Nothing of what is left changes.
    pub(crate) fn peek(&mut self) -> CounterNext<'a>
        requires { AreSoundCounters self.old }
        ensures sound { AreSoundCounters self.new }
        ensures left { counters_left self.new ≡ counters_left self.old }
        ensures next { IsCounterNext self.new result }
        ensures end { at_turn self.new ≡ false → counters_left self.new ≡ [] }
        ensures program { counters_tree self.new ≡ counters_tree self.old }
        ensures plan { counters_plan self.new ≡ counters_plan self.old }
        ensures processor { counters_processor self.new ≡ counters_processor self.old }
    {
        while !self.is_at_turn() && self.advance() {}
        self.next()
    }

    // What comes next that does something: phases begin unseen.
    pub(crate) fn peek_act(&mut self) -> CounterNext<'a>
        requires { AreSoundCounters self.old }
        ensures sound { AreSoundCounters self.new }
        ensures left { counters_left self.new ≡ without_beginnings (counters_left self.old) }
        ensures next { IsCounterNext self.new result }
        ensures act { IsAct result }
        ensures end { at_turn self.new ≡ false → counters_left self.new ≡ [] }
        ensures program { counters_tree self.new ≡ counters_tree self.old }
        ensures plan { counters_plan self.new ≡ counters_plan self.old }
        ensures processor { counters_processor self.new ≡ counters_processor self.old }
    {
        let mut next = self.peek();
        while let CounterNext::Phase(_) = next {
            self.pass();
            next = self.peek();
        }
        next
    }

    // Whether something comes next without a look at what is behind.
    fn is_at_turn(&self) -> bool
        ensures { result ≡ at_turn self.now }
    {
        self.posts || self.awaits != 0 || self.begins.is_some() || self.come.is_some()
    }

    // To the next instance, or into the next phase; whether there was one.
    fn advance(&mut self) -> bool
        requires sound { AreSoundCounters self.old }
        requires bare { at_turn self.old ≡ false }
        ensures sound { AreSoundCounters self.new }
        ensures left { counters_left self.new ≡ counters_left self.old }
        ensures nearer { result ≡ true → to_go self.new < to_go self.old }
        ensures end { result ≡ false → (counters_left self.old ≡ []) × (at_turn self.new ≡ false) }
        ensures program { counters_tree self.new ≡ counters_tree self.old }
        ensures plan { counters_plan self.new ≡ counters_plan self.old }
        ensures processor { counters_processor self.new ≡ counters_processor self.old }
    {
        self.come = self.own.next();
        self.come.is_some() || self.enter()
    }

    // Into the next phase, where none of this one's instances is left; whether there was one.
    fn enter(&mut self) -> bool
        requires sound { AreSoundCounters self.old }
        requires bare { at_turn self.old ≡ false }
        requires own { instances_left self.old.own ≡ [] }
        ensures sound { AreSoundCounters self.new }
        ensures left { counters_left self.new ≡ counters_left self.old }
        ensures nearer { result ≡ true → to_go self.new < to_go self.old }
        ensures end { result ≡ false → (counters_left self.old ≡ []) × (at_turn self.new ≡ false) }
        ensures program { counters_tree self.new ≡ counters_tree self.old }
        ensures plan { counters_plan self.new ≡ counters_plan self.old }
        ensures processor { counters_processor self.new ≡ counters_processor self.old }
    {
        let Some(phase) = self.phases.next() else {
            return false;
        };
        self.number = phase.number - 1;
        self.boundary = boundary_before(self.plan, &phase);
        self.begins = Some(phase.number);
        self.place = phase.place;
        let (posts, awaits) = waits_before(self.plan, &self.phases, phase.place, self.processor);
        self.posts = posts;
        self.awaits = awaits;
        let anchor = &self.plan.anchors.as_slice()[phase.place as usize - 1];
        self.phases
            .restart_own(&mut self.own, anchor, self.processor, self.plan.workers);
        true
    }

    // What stands first.
    fn next(&self) -> CounterNext<'a>
        requires sound { AreSoundCounters self.now }
        requires end { at_turn self.now ≡ false → counters_left self.now ≡ [] }
        ensures { IsCounterNext self.now result }
    {
        if self.posts {
            return CounterNext::Post(self.number);
        }
        if self.awaits != 0 {
            return CounterNext::Await {
                on: self.awaits.trailing_zeros(),
                wanted: self.number,
            };
        }
        if let Some(phase) = self.begins {
            return CounterNext::Phase(phase);
        }
        match self.come {
            Some(stop) => CounterNext::Work(stop),
            None => CounterNext::End,
        }
    }

    // Past what comes next, where something does.
    pub(crate) fn pass(&mut self)
        requires sound { AreSoundCounters self.old }
        requires some { at_turn self.old ≡ true }
        ensures sound { AreSoundCounters self.new }
        ensures program { counters_tree self.new ≡ counters_tree self.old }
        ensures plan { counters_plan self.new ≡ counters_plan self.old }
        ensures processor { counters_processor self.new ≡ counters_processor self.old }
        ensures passed { (t : CounterTurn) × (counters_left self.old ≡ t ∷ counters_left self.new) }
    {
        if self.posts {
            self.posts = false;
        } else if self.awaits != 0 {
            self.awaits &= !(1 << self.awaits.trailing_zeros());
        } else if self.begins.is_some() {
            self.begins = None;
        } else {
            self.come = None;
        }
    }

    // Past all awaits of a boundary at once, where one of them comes next: the phase comes next.
    pub(crate) fn pass_awaits(&mut self)
        requires sound { AreSoundCounters self.old }
        requires some { at_turn self.old ≡ true }
        requires next { (on wanted : ℕ) × IsCounterNext self.old (CounterNext.Await on wanted) }
        ensures sound { AreSoundCounters self.new }
        ensures program { counters_tree self.new ≡ counters_tree self.old }
        ensures plan { counters_plan self.new ≡ counters_plan self.old }
        ensures processor { counters_processor self.new ≡ counters_processor self.old }
        ensures passed { (number : ℕ) × (awaited : List ℕ)
            × (counters_left self.old ≡ map (λ q. awaits q number) awaited
            ++ counters_left self.new) }
        ensures phase { (on wanted : ℕ) → IsCounterNext self.old (CounterNext.Await on wanted)
            → (rest : List CounterTurn) × (counters_left self.new ≡ begins (suc wanted) ∷ rest) }
    {
        self.awaits = 0;
    }

    // The trips that are left of a loop round one assignment, where the next turn is the first of
    // them and hasn't been looked at: a strip's instances come next, and what is behind them is
    // left.
    #[inline(always)]
    pub(crate) fn strip(&mut self) -> Option<Strip<'a>>
        requires { AreSoundCounters self.old }
        ensures sound { AreSoundCounters self.new }
        ensures left { MatchOption result (counters_left self.new ≡ counters_left self.old)
            (λ s. counters_left self.old ≡ map works (strip_left s) ++ counters_left self.new) }
        ensures some { IfSome result (λ s. 0 < length (strip_left s)) }
        ensures tree { IfSome result (λ s. strip_tree s ≡ counters_tree self.new) }
        ensures program { counters_tree self.new ≡ counters_tree self.old }
        ensures plan { counters_plan self.new ≡ counters_plan self.old }
        ensures processor { counters_processor self.new ≡ counters_processor self.old }
    {
        if self.is_at_turn() {
            return None;
        }
        self.own.strip()
    }
}

// How the processors pass the boundary in front of a phase.
fn boundary_before(plan: &Plan, phase: &Phase) -> Boundary
    ensures { result
        ≡ boundary_by (slice_get plan.now.kinds (phase.now.place - 1)) plan.now.workers }
{
    match plan.kind(phase.place) {
        Some(kind) => passed_by(kind, plan.workers),
        None => Boundary::Counters,
    }
}

fn passed_by(kind: &Kind, workers: u32) -> Boundary
    ensures { result ≡ boundary_by (Some kind.now) workers }
{
    if kind.is_join() {
        Boundary::Join
    } else if kind.is_barrier() && 1 < workers {
        Boundary::Barrier
    } else {
        Boundary::Counters
    }
}

// Whether processor `p` posts in front of the phase that was given last, which is one of this static
// phase, and the word of those for which it waits there: bit q is processor q.
fn waits_before(plan: &Plan, phases: &PhaseCursor<'_>, place: u32, p: u32) -> (bool, u64)
    requires fits { IsFit (phases_tree phases.now) plan.now }
    requires worker { p < plan.now.workers }
    ensures posts { (v : Visit) → phase_last phases.now ≡ Some v
        → result.0 ≡ posts_at (phases_tree phases.now) plan.now p place v.loops }
    ensures awaits { (v : Visit) → phase_last phases.now ≡ Some v
        → members result.1 ≡ waits_for (phases_tree phases.now) plan.now p place v.loops }
{
    let workers = plan.workers;
    let Some(kind) = plan.kind(place) else {
        return (false, 0);
    };
    let owner = owner_before(plan, phases, kind, place);
    (
        is_awaited(kind, owner, p, workers),
        awaited(kind, owner, p, workers),
    )
}

// The processor that the kind in front of that phase names there: the number of workers where that
// is none of them, and 0 where the kind has no anchor.
fn owner_before(plan: &Plan, phases: &PhaseCursor<'_>, kind: &Kind, place: u32) -> u32
    requires fits { IsFit (phases_tree phases.now) plan.now }
    requires kind { slice_get plan.now.kinds (place - 1) ≡ Some kind.now }
    ensures { (v : Visit) → phase_last phases.now ≡ Some v
        → result
        ≡ min (kind_owner kind.now plan.now.workers v.loops (param_values (phases_tree phases.now)))
        plan.now.workers }
{
    match kind.anchor() {
        Some(anchor) => phases.owner(anchor, plan.workers),
        None => 0,
    }
}
