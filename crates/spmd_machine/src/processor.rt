// A processor of the machine.

ghost use Rattle.std.specs.Prelude.{◌≡◌, ◌<◌};

use instance_runs::LoadPlace;
use nest_walk::Stop;
use own_cells::OWN_PLACES;
use turns::{Next, Turns};

/// The turns that a processor has left, the instance that comes next, where it has begun or was
/// found, what the loads of the turn that has begun gave, where its next load stands, how many of its
/// acts are done, the processor's two words, and its own cells, by places of own scalars.
#[derive(Drop)]
pub(crate) struct Processor<'a> {
    pub(crate) turns: Turns<'a>,
    pub(crate) found: Option<Stop<'a>>,
    pub(crate) registers: Vec<i64>,
    pub(crate) place: LoadPlace,
    pub(crate) done: usize,
    pub(crate) counter: u64,
    pub(crate) signal: u64,
    pub(crate) own: [i64; OWN_PLACES],
}

/// Where an access goes: a cell that all share, and the place of the processor's own one for it,
/// where it is an own scalar's.
#[derive(Clone, Copy)]
pub(crate) struct Spot {
    pub(crate) cell: usize,
    pub(crate) own: Option<usize>,
}

impl<'a> Processor<'a> {
    ghost use Rattle.nest_tree.specs.Layout.{cell_count};
    ghost use Rattle.sync_plan.specs.Own.{own_of};
    ghost use Rattle.spmd_machine.specs.Processors.{IsFoundNext, LooksFrom, PassesTurn};
    ghost use Rattle.turns.specs.Turns.{Turn};
    ghost use Rattle.turns.specs.TurnsLeft.{AreSound, IsNext, IsTurn, turns_plan, turns_tree};

    // What comes next. Nothing of what is left changes. An instance is kept, where it is looked for
    // again to see whether its next act is quiet.
    #[inline(always)]
    pub(crate) fn peek(&mut self) -> Next<'a>
        requires sound { AreSound self.old.turns }
        requires found { IsFoundNext self.old.turns self.old.found }
        ensures looks { LooksFrom self.old self.new }
        ensures next { IsNext self.new.turns result }
    {
        if let Some(stop) = self.found {
            return Next::Work(stop);
        }
        let next = self.turns.peek();
        if !self.turns.has_own() {
            return next;
        }
        let Next::Work(stop) = next else {
            return next;
        };
        self.found = Some(stop);
        next
    }

    // Where an access of a cell goes.
    #[inline(always)]
    pub(crate) fn spot(&self, cell: usize) -> Spot
        requires sound { AreSound self.now.turns }
        requires cell { cell < cell_count (turns_tree self.now.turns) }
        ensures cell { result.cell ≡ cell }
        ensures own { result.own
            ≡ (own_of (turns_tree self.now.turns)
            (turns_plan self.now.turns) self.now.turns.place).slot cell }
    {
        Spot {
            cell,
            own: self.place_of(cell),
        }
    }

    // The place of a cell among those of the own scalars of its phase, if it is one's.
    #[inline(always)]
    fn place_of(&self, cell: usize) -> Option<usize>
        requires sound { AreSound self.now.turns }
        requires cell { cell < cell_count (turns_tree self.now.turns) }
        ensures { result
            ≡ (own_of (turns_tree self.now.turns)
            (turns_plan self.now.turns) self.now.turns.place).slot cell }
    {
        if self.turns.has_own() {
            self.turns.own_cells().place_of(cell as u32)
        } else {
            None
        }
    }

    // Past what comes next, whose last act is done.
    pub(crate) fn finish(&mut self, next: Next<'a>)
        requires sound { AreSound self.old.turns }
        requires next { IsNext self.old.turns next }
        requires some { IsTurn next }
        ensures passes { (t : Turn) × PassesTurn self.old self.new t }
        ensures counter { self.new.counter ≡ self.old.counter }
        ensures signal { self.new.signal ≡ self.old.signal }
        ensures own_cells { self.new.own ≡ self.old.own }
    {
        self.found = None;
        self.registers.clear();
        self.place = LoadPlace::first();
        self.done = 0;
        self.turns.pass(next);
    }
}
