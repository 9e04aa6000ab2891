// The trips of a loop round one assignment.

ghost use Rattle.std.specs.Prelude.{◌≡◌, ℕ, ◌<◌, [], ◌∷◌, ◌++◌, IfSome, IsSome, IsTrue, List, MatchOption, None, length, true};
ghost use Rattle.std.specs.List.{list_all};
ghost use Rattle.nest_tree.specs.Form.{is_small};
ghost use Rattle.nest_tree.specs.View.{statement_of, tree_of};
ghost use Rattle.nest_tree.specs.declared.tree.Access.{Access};
ghost use Rattle.nest_model.specs.Visits.{every};
ghost use Rattle.nest_walk.specs.Cursors.{is_reached};
ghost use Rattle.nest_walk.specs.OnlyAssignments.{IsOnlyAssignment, is_plain};
ghost use Rattle.nest_walk.specs.Places.{numbers_of};
ghost use Rattle.nest_walk.specs.RoundsOf.{rounds_of};
ghost use Rattle.nest_walk.specs.Texts.{StandFrom, placed_in, works};
ghost use Rattle.nest_walk.specs.TripsLeft.{trips_left};

use crate::count::is_marked;
use crate::cursor::{Cursor, Stop};
use crate::frame::Frame;
use crate::path::Path;
use crate::trips::Trips;
use nest_tree::{Expr, Item, Nest, Program};

/// The trips that are left of a loop round one assignment without a comparison, with at most a
/// CONTINUE behind it. They are gone through without a walk, and it takes no memory.
#[derive(Clone, Copy)]
pub struct Strip<'a> {
    pub(crate) program: &'a Program,
    pub(crate) stop: Stop<'a>,
    pub(crate) path: Path,
    pub(crate) trips: Trips,
    ghost plain: { IsTrue (is_plain (statement_of stop.item.now)) },
    ghost inside: { 0 < length (rounds_of path) },
    ghost small: { IsTrue (list_all is_small (trips_left trips)) },
    ghost reached: { IsTrue (is_reached (tree_of program.now) (rounds_of path) stop) },
    ghost text: { StandFrom (works (tree_of program.now)) stop.first
        (placed_in every (numbers_of (rounds_of path)) (statement_of stop.item.now)) },
}

impl<'a> Strip<'a> {
    ghost use Rattle.nest_tree.specs.Tree.{param_values};
    ghost use Rattle.nest_model.specs.Instances.{Instance};
    ghost use Rattle.nest_model.specs.Visits.{instances_at};
    ghost use Rattle.nest_walk.specs.Cursors.{visit_at};
    ghost use Rattle.nest_walk.specs.Paths.{Round};
    ghost use Rattle.nest_walk.specs.Strips.{at_value, strip_left, strip_rounds, strip_tree};

    /// The stop at the assignment, the same in each trip.
    pub fn stop(&self) -> Stop<'a>
        ensures { result ≡ self.now.stop }
    {
        self.stop
    }

    /// The value that is assigned.
    pub fn value(&self) -> &'a Expr
        ensures { (target : Access) × (line : ℕ)
            × (self.now.stop.item.now ≡ Item.Assign target result.now None line) }
    {
        match plain_value(self.stop.item) {
            Some(e) => e,
            None => unreachable!(),
        }
    }

    /// The loops round the assignment, with their values in the trip that was given last.
    pub fn path(&self) -> &Path
        ensures { rounds_of result.now ≡ strip_rounds self.now }
    {
        &self.path
    }

    /// The number of the strip's loop.
    pub fn number(&self) -> u32
        ensures { (r : Round) (rounds : List Round) → strip_rounds self.now ≡ r ∷ rounds
            → result ≡ r.number }
    {
        self.path.innermost()
    }

    /// The value of the loop in the next trip, until there is none.
    #[inline(always)]
    pub fn next(&mut self) -> Option<i64>
        ensures instance { MatchOption result (strip_left self.old ≡ []) (λ v. (i : Instance)
            × (instances_at (param_values (strip_tree self.new))
            (visit_at (strip_tree self.new) (strip_rounds self.new) self.new.stop) ≡ i ∷ [])
            × (strip_left self.old ≡ i ∷ strip_left self.new)) }
        ensures end { MatchOption result (strip_left self.new ≡ []) (λ v. Unit) }
        ensures round { IfSome result (λ v. strip_rounds self.new
            ≡ at_value (strip_rounds self.old) v) }
        ensures stop { self.new.stop ≡ self.old.stop }
        ensures program { strip_tree self.new ≡ strip_tree self.old }
    {
        if self.trips.is_empty() {
            return None;
        }
        let value = self.trips.take();
        self.path.set(value);
        Some(value)
    }
}

impl<'a> Cursor<'a> {
    ghost use Rattle.nest_walk.specs.Cursors.{left_of, marks_in, moves_to_go, tree_in};
    ghost use Rattle.nest_walk.specs.Strips.{strip_tree, strip_visits};
    ghost use Rattle.nest_walk.specs.Walks.{enters_but};

    // The trips that are left of a loop round one assignment, where the next stop is the first of
    // them: the walk goes past them.
    #[inline(always)]
    pub(crate) fn strip(&mut self) -> Option<Strip<'a>>
        ensures left { MatchOption result (left_of self.new ≡ left_of self.old)
            (λ s. left_of self.old ≡ strip_visits s ++ left_of self.new) }
        ensures some { IfSome result (λ s. 0 < length (trips_left s.trips)) }
        ensures tree { IfSome result (λ s. strip_tree s ≡ tree_in self.new) }
        ensures program { tree_in self.new ≡ tree_in self.old }
        ensures marks { marks_in self.new ≡ marks_in self.old }
    {
        loop {
            if let Some((item, behind)) = self.rest.items.split_first() {
                match item {
                    Item::Loop(nest) => {
                        if is_marked(self.marks, nest.number) {
                            return None;
                        }
                        if let Some(strip) = self.pass_loop(item, nest, behind) {
                            return Some(strip);
                        }
                    }
                    Item::Continue(_) => {
                        let _ = self.advance(item, behind, 0, 0);
                    }
                    Item::Assign(..) | Item::Print(..) => return None,
                }
            } else {
                if let Some(strip) = self.later_trips() {
                    return Some(strip);
                }
                if !self.turn() {
                    return None;
                }
            }
        }
    }

    // Past a loop that isn't marked where it has one assignment, and into it otherwise.
    fn pass_loop(&mut self, item: &'a Item, nest: &'a Nest, behind: &'a [Item]) -> Option<Strip<'a>>
        requires rest { self.old.rest.items.now ≡ item.now ∷ behind.now }
        requires nest { item.now ≡ Item.Loop nest.now }
        requires entered { enters_but (marks_in self.old) nest.now.number ≡ true }
        ensures left { MatchOption result (left_of self.new ≡ left_of self.old)
            (λ s. left_of self.old ≡ strip_visits s ++ left_of self.new) }
        ensures some { IfSome result (λ s. 0 < length (trips_left s.trips)) }
        ensures tree { IfSome result (λ s. strip_tree s ≡ tree_in self.new) }
        ensures moved { moves_to_go self.new < moves_to_go self.old }
        ensures program { tree_in self.new ≡ tree_in self.old }
        ensures marks { marks_in self.new ≡ marks_in self.old }
    {
        if let Some(only) = only_assignment(&nest.items) {
            self.pass_strip(item, nest, only, behind)
        } else {
            self.come_to(item, nest, behind);
            None
        }
    }

    // Past a loop round one assignment.
    fn pass_strip(
        &mut self,
        item: &'a Item,
        nest: &'a Nest,
        only: &'a Item,
        behind: &'a [Item],
    ) -> Option<Strip<'a>>
        requires rest { self.old.rest.items.now ≡ item.now ∷ behind.now }
        requires nest { item.now ≡ Item.Loop nest.now }
        requires entered { enters_but (marks_in self.old) nest.now.number ≡ true }
        requires only { IsOnlyAssignment nest.now.items.items only.now }
        ensures left { MatchOption result (left_of self.new ≡ left_of self.old)
            (λ s. left_of self.old ≡ strip_visits s ++ left_of self.new) }
        ensures some { IfSome result (λ s. 0 < length (trips_left s.trips)) }
        ensures tree { IfSome result (λ s. strip_tree s ≡ tree_in self.new) }
        ensures moved { moves_to_go self.new < moves_to_go self.old }
        ensures program { tree_in self.new ≡ tree_in self.old }
        ensures marks { marks_in self.new ≡ marks_in self.old }
    {
        let program = self.program;
        let trips = Trips::of_nest(program, nest, &self.path);
        let mut path = self.path;
        path.push(nest.number, 0);
        let Stop { place, first, .. } = self.advance(item, behind, 1, 1);
        if trips.is_empty() {
            return None;
        }
        let stop = Stop {
            item: only,
            place,
            first,
        };
        Some(Strip {
            program,
            stop,
            path,
            trips,
        })
    }

    // The later trips of the innermost loop where it has one assignment, which are then no more.
    #[inline(always)]
    fn later_trips(&mut self) -> Option<Strip<'a>>
        requires { self.old.rest.items.now ≡ [] }
        ensures left { MatchOption result (left_of self.new ≡ left_of self.old)
            (λ s. left_of self.old ≡ strip_visits s ++ left_of self.new) }
        ensures some { IfSome result (λ s. 0 < length (trips_left s.trips)) }
        ensures tree { IfSome result (λ s. strip_tree s ≡ tree_in self.new) }
        ensures same { MatchOption result (self.new ≡ self.old) (λ s. Unit) }
        ensures program { tree_in self.new ≡ tree_in self.old }
        ensures marks { marks_in self.new ≡ marks_in self.old }
    {
        let depth = self.path.depth();
        if depth == 0 {
            return None;
        }
        let Frame { body, later, .. } = self.frames.at(depth - 1);
        if later.is_empty() {
            return None;
        }
        let item = only_assignment(body.items)?;
        let strip = Strip {
            program: self.program,
            stop: Stop {
                item,
                place: body.place,
                first: body.first,
            },
            path: self.path,
            trips: later,
        };
        self.frames.put_later(depth - 1, Trips::new(0, 1, 0));
        Some(strip)
    }
}

// The one assignment in these statements, where it has no comparison, and no other statement stands
// there but one CONTINUE behind it.
fn only_assignment(items: &[Item]) -> Option<&Item>
    ensures { IfSome result (λ item. IsOnlyAssignment items.now item.now) }
{
    match items {
        [only] => {
            plain_value(only)?;
            Some(only)
        }
        [first, last] => {
            plain_value(first)?;
            if is_continue(last) { Some(first) } else { None }
        }
        _ => None,
    }
}

fn is_continue(item: &Item) -> bool
    ensures { result ≡ true → (line : ℕ) × (item.now ≡ Item.Continue line) }
{
    match item {
        Item::Continue(_) => true,
        _ => false,
    }
}

// The value of an assignment without a comparison.
fn plain_value(item: &Item) -> Option<&Expr>
    ensures value { IfSome result (λ e. (target : Access) × (line : ℕ)
        × (item.now ≡ Item.Assign target e.now None line)) }
    ensures plain { IsTrue (is_plain (statement_of item.now)) → IsSome result }
{
    match item {
        Item::Assign(_, e, None, _) => Some(e),
        _ => None,
    }
}
