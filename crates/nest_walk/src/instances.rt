// The instances of a program.

ghost use Rattle.std.specs.Prelude.{◌≡◌, [], ◌∷◌, ◌++◌, ◌<◌, IfSome, IsTrue, MatchOption, length};
ghost use Rattle.std.specs.List.{All, Contains, flat_map};
ghost use Rattle.nest_tree.specs.Tree.{param_values};
ghost use Rattle.nest_tree.specs.View.{tree_of, statement_of, statements_from};
ghost use Rattle.nest_model.specs.Instances.{Instance, head_trips, instances, instances_in, instances_of, with_loop};
ghost use Rattle.nest_model.specs.Visits.{every, instances_at};
ghost use Rattle.nest_walk.specs.Cursors.{is_reached, loops_in, visit_at};
ghost use Rattle.nest_walk.specs.Executed.{is_executed_at};
ghost use Rattle.nest_walk.specs.Frames.{head_of};
ghost use Rattle.nest_walk.specs.Places.{numbers_of};
ghost use Rattle.nest_walk.specs.RoundsOf.{rounds_of};
ghost use Rattle.nest_walk.specs.Strips.{strip_left, strip_tree};
ghost use Rattle.nest_walk.specs.Texts.{StandFrom, placed_in, works};
ghost use Rattle.nest_walk.specs.TripsLeft.{trips_left};

use crate::cursor::{Cursor, Stop};
use crate::path::Path;
use crate::strip::Strip;
use crate::trips::Trips;
use nest_tree::{Item, Nest, Program};

/// The instances of a program that are left, in sequential order: the stops of the walk that
/// enters every loop, an assignment behind a logical IF only where its comparison holds. It takes
/// no memory.
#[derive(Clone, Copy)]
pub struct Instances<'a> {
    pub(crate) cursor: Cursor<'a>,
}

impl<'a> Instances<'a> {
    ghost use Rattle.nest_walk.specs.InstancesLeft.{instances_left, instances_tree, instances_rounds};

    /// All instances.
    pub fn new(program: &'a Program) -> Self
        ensures instances { instances_left result ≡ instances (tree_of program.now) }
        ensures program { instances_tree result ≡ tree_of program.now }
    {
        Instances {
            cursor: Cursor::new(program, &[]),
        }
    }

    /// No instance.
    pub fn none(program: &'a Program) -> Self
        ensures instances { instances_left result ≡ [] }
        ensures program { instances_tree result ≡ tree_of program.now }
    {
        Instances {
            cursor: Cursor::none(program),
        }
    }

    /// In place of those that are left, the instances of the statement of a stop alone, where these
    /// loops are round it.
    pub fn restart(&mut self, path: &Path, stop: Stop<'a>)
        requires reached { IsTrue (is_reached (instances_tree self.old) (rounds_of path.now) stop) }
        requires text { StandFrom (works (instances_tree self.old)) stop.first
            (placed_in every (numbers_of (rounds_of path.now)) (statement_of stop.item.now)) }
        ensures instances { instances_left self.new
            ≡ instances_of (param_values (instances_tree self.old))
            (statement_of stop.entry.item.now) stop.entry.first (loops_in (instances_tree self.old)
            (rounds_of path.now)) }
        ensures program { instances_tree self.new ≡ instances_tree self.old }
    {
        self.cursor.restart(path, stop);
    }

    /// In place of those that are left, the instances of the body of a loop alone, once for each of
    /// these values of its DO variable, which are among those of its trips, where these loops are
    /// round it.
    pub fn restart_trips(&mut self, path: &Path, stop: Stop<'a>, nest: &'a Nest, trips: Trips)
        requires reached { IsTrue (is_reached (instances_tree self.old) (rounds_of path.now) stop) }
        requires text { StandFrom (works (instances_tree self.old)) stop.first
            (placed_in every (numbers_of (rounds_of path.now)) (statement_of stop.item.now)) }
        requires nest { stop.item.now ≡ Item.Loop nest.now }
        requires trips { All
            (Contains (head_trips (param_values (instances_tree self.old)) (head_of nest.now)
            (loops_in (instances_tree self.old) (rounds_of path.now)))) (trips_left trips) }
        ensures instances { instances_left self.new
            ≡ flat_map (λ v. instances_in (param_values (instances_tree self.old))
            (statements_from nest.now.items.items) stop.entry.first
            (with_loop (loops_in (instances_tree self.old) (rounds_of path.now)) nest.now.number v))
            (trips_left trips) }
        ensures program { instances_tree self.new ≡ instances_tree self.old }
    {
        self.cursor.restart_trips(path, stop, nest, trips);
    }

    /// The program that they are of.
    pub fn program(&self) -> &'a Program
        ensures { tree_of result.now ≡ instances_tree self.now }
    {
        self.cursor.program()
    }

    /// The loops round the instance that was given last, with their values.
    pub fn path(&self) -> &Path
        ensures { rounds_of result.now ≡ instances_rounds self.now }
    {
        self.cursor.path()
    }

    /// The next instance, until there is none.
    #[inline(always)]
    pub fn next(&mut self) -> Option<Stop<'a>>
        ensures instance { MatchOption result (instances_left self.old ≡ []) (λ s. (i : Instance)
            × (instances_at (param_values (instances_tree self.new))
            (visit_at (instances_tree self.new) (instances_rounds self.new) s) ≡ i ∷ [])
            × (instances_left self.old ≡ i ∷ instances_left self.new)) }
        ensures end { MatchOption result (instances_left self.new ≡ []) (λ s. Unit) }
        ensures reached { IfSome result
            (λ s. IsTrue (is_reached (instances_tree self.new) (instances_rounds self.new) s)) }
        ensures text { IfSome result (λ s. StandFrom (works (instances_tree self.new)) s.first
            (placed_in every (numbers_of (instances_rounds self.new)) (statement_of s.item.now))) }
        ensures program { instances_tree self.new ≡ instances_tree self.old }
    {
        while let Some(stop) = self.cursor.next() {
            if self.is_executed(stop) {
                return Some(stop);
            }
        }
        None
    }

    /// The trips that are left of a loop round one assignment, where the next instance is the
    /// first of them: a strip's instances come next, and those behind it are left.
    #[inline(always)]
    pub fn strip(&mut self) -> Option<Strip<'a>>
        ensures instances { MatchOption result (instances_left self.new ≡ instances_left self.old)
            (λ s. instances_left self.old ≡ strip_left s ++ instances_left self.new) }
        ensures some { IfSome result (λ s. 0 < length (strip_left s)) }
        ensures tree { IfSome result (λ s. strip_tree s ≡ instances_tree self.new) }
        ensures program { instances_tree self.new ≡ instances_tree self.old }
    {
        self.cursor.strip()
    }

    // Whether the statement of a stop is executed there.
    #[inline(always)]
    fn is_executed(&self, stop: Stop<'a>) -> bool
        requires { IsTrue (is_reached (instances_tree self.now) (instances_rounds self.now) stop) }
        ensures { result ≡ is_executed_at (instances_tree self.now) (instances_rounds self.now)
            (statement_of stop.entry.item.now) }
    {
        match stop.item {
            Item::Assign(_, _, Some(guard), _) => self.cursor.holds(guard),
            Item::Assign(_, _, None, _) | Item::Print(..) => true,
            Item::Loop(_) | Item::Continue(_) => false,
        }
    }
}
