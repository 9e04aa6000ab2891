// The phases of a program, one by one.

ghost use Rattle.std.specs.Prelude.{◌+◌, ◌≤◌, IsTrue, length};
ghost use Rattle.std.specs.Option.{ForSome};
ghost use Rattle.nest_tree.specs.Limits.{most_work};
ghost use Rattle.nest_tree.specs.View.{statement_of};
ghost use Rattle.nest_model.specs.Visits.{every};
ghost use Rattle.nest_walk.specs.Cursors.{is_reached, left_of, rounds_in, tree_in};
ghost use Rattle.nest_walk.specs.Places.{numbers_of};
ghost use Rattle.nest_walk.specs.Texts.{StandFrom, placed_in, works};

use crate::anchor::{Anchor, clamped_owner};
use crate::cut::Cut;
use crate::own::{OwnStops, exact_value, restart_own};
use nest_tree::Program;
use nest_walk::{Cursor, MOST_LOOPS, Stop};

/// A phase: its number, from 1 in order of execution, the number of its static phase, from 1 in
/// text order, and the values of the Outer loops round it by depth from the outermost, with 0 in
/// the places left over.
#[derive(Clone, Copy, Debug, PartialEq, Eq)]
pub struct Phase {
    pub number: u64,
    pub place: u32,
    pub outer: [i64; MOST_LOOPS],
}

/// The phases of a program that are left, in order of execution, with those that have no
/// instance. It takes no memory.
#[derive(Clone, Copy)]
pub struct PhaseCursor<'a> {
    cursor: Cursor<'a>,
    passed: u64,
    last: Option<Stop<'a>>,
    ghost counted: { passed + length (left_of cursor) ≤ most_work },
    ghost reached: { ForSome last
        (λ s. IsTrue (is_reached (tree_in cursor) (rounds_in cursor) s)) },
    ghost text: { ForSome last (λ s. StandFrom (works (tree_in cursor)) s.first
        (placed_in every (numbers_of (rounds_in cursor)) (statement_of s.item.now))) },
}

impl<'a> PhaseCursor<'a> {
    ghost use Rattle.std.specs.Prelude.{◌≡◌, ◌<◌, ℕ, [], ◌∷◌, MatchOption};
    ghost use Rattle.nest_tree.specs.Form.{reach_within};
    ghost use Rattle.nest_tree.specs.Tree.{param_values};
    ghost use Rattle.nest_walk.specs.InstancesLeft.{instances_left, instances_tree};
    ghost use Rattle.owner_partition.specs.declared.anchor.Dist.TheVariants.{Block};
    ghost use Rattle.owner_partition.specs.OwnInstances.{names_no_inner};
    ghost use Rattle.owner_partition.specs.Owners.{anchor_owner, has_places, own_instances};
    ghost use Rattle.std.specs.Prelude.{min};
    ghost use Rattle.nest_tree.specs.View.{tree_of};
    ghost use Rattle.nest_model.specs.Visits.{Visit};
    ghost use Rattle.owner_partition.specs.Marks.{enters_outer};
    ghost use Rattle.owner_partition.specs.Phases.{phases};
    ghost use Rattle.owner_partition.specs.PhasesLeft.{IsPhase, phase_last, phases_enters, phases_left, phases_passed, phases_rounds, phases_tree};

    /// All phases of a program.
    pub fn new(program: &'a Program, cut: &'a Cut) -> Self
        ensures phases { phases_left result ≡ phases (tree_of program.now) cut.now.marks }
        ensures passed { phases_passed result ≡ 0 }
        ensures last { phase_last result ≡ None }
        ensures program { phases_tree result ≡ tree_of program.now }
        ensures enters { phases_enters result ≡ enters_outer cut.now.marks }
    {
        PhaseCursor {
            cursor: Cursor::new(program, cut.closed()),
            passed: 0,
            last: None,
        }
    }

    /// The next phase, until there is none.
    pub fn next(&mut self) -> Option<Phase>
        ensures phase { MatchOption result (phases_left self.old ≡ []) (λ p. (v : Visit)
            × (phases_left self.old ≡ v ∷ phases_left self.new) × (phase_last self.new ≡ Some v)
            × IsPhase (phases_tree self.new) (phases_enters self.new) (phases_rounds self.new)
            (phases_passed self.old + 1) v p) }
        ensures passed { MatchOption result (phases_passed self.new ≡ phases_passed self.old)
            (λ p. phases_passed self.new ≡ phases_passed self.old + 1) }
        ensures end { MatchOption result ((phases_left self.new ≡ [])
            × (phase_last self.new ≡ None)) (λ p. Unit) }
        ensures program { phases_tree self.new ≡ phases_tree self.old }
        ensures enters { phases_enters self.new ≡ phases_enters self.old }
    {
        self.last = self.cursor.next();
        let stop = self.last?;
        self.passed += 1;
        Some(Phase {
            number: self.passed,
            place: stop.place,
            outer: *self.cursor.path().values(),
        })
    }

    /// In place of none that is left, the instances of the phase that was given last that processor
    /// `p` of so many owns, in sequential order, by the phase's anchor; none where no phase was given.
    /// The anchor's form names no loop inside that of the phase.
    pub fn restart_own(&self, own: &mut OwnStops<'a>, anchor: &Anchor, p: u32, workers: u32)
        requires none { instances_left own.old ≡ [] }
        requires walked { instances_tree own.old ≡ phases_tree self.now }
        requires outside { ForSome (phase_last self.now)
            (λ v. IsTrue (names_no_inner v.what anchor.now.form)) }
        requires given { IsTrue
            (reach_within (length (phases_tree self.now).params) anchor.now.form.params) }
        requires worker { p < workers }
        requires block { (length : ℕ) → anchor.now.dist ≡ Block length → 1 ≤ length }
        ensures own { MatchOption (phase_last self.now) (instances_left own.new ≡ [])
            (λ v. instances_left own.new
            ≡ own_instances (param_values (phases_tree self.now)) anchor.now workers p v) }
        ensures program { instances_tree own.new ≡ phases_tree self.now }
    {
        if let Some(stop) = self.last {
            restart_own(own, self.cursor.path(), stop, anchor, p, workers);
        }
    }

    /// The processor that an anchor names in the phase that was given last, from 0 for one below
    /// the first, and the number of workers for one past them; 0 where no phase was given.
    pub fn owner(&self, anchor: &Anchor, workers: u32) -> u32
        requires given { IsTrue
            (reach_within (length (phases_tree self.now).params) anchor.now.form.params) }
        requires places { IsTrue (has_places anchor.now.dist) }
        requires some { 1 ≤ workers }
        ensures { MatchOption (phase_last self.now) (result ≡ 0) (λ v. result
            ≡ min (anchor_owner anchor.now workers v.loops (param_values (phases_tree self.now)))
            workers) }
    {
        let Some(_stop) = self.last else {
            return 0;
        };
        let place = exact_value(self.cursor.program(), self.cursor.path(), &anchor.form);
        clamped_owner(anchor.dist, place, workers)
    }
}
