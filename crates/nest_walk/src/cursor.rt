// A walk of a program.

ghost use Rattle.std.specs.Prelude.{IsTrue};
ghost use Rattle.nest_tree.specs.View.{tree_of};
ghost use Rattle.nest_walk.specs.Frames.{levels_to, stretch_of};
ghost use Rattle.nest_walk.specs.InText.{AreInText, AreInText-prop};
ghost use Rattle.nest_walk.specs.RoundsOf.{rounds_of};
ghost use Rattle.nest_walk.specs.Walks.{walk_in, is_sound};

use crate::count::{is_marked, stop_count, work_count, works_in_item};
use crate::form::value_at;
use crate::frame::{Frame, Frames, Part};
use crate::path::Path;
use crate::trips::Trips;
use nest_tree::{Guard, Item, Nest, Program};
use std::slice::from_ref;

/// A stop of a walk: a statement, its number among the stops in the text and the number of its
/// first piece of work, both from 1.
#[derive(Clone, Copy)]
pub struct Stop<'a> {
    pub item: &'a Item,
    pub place: u32,
    pub first: u32,
}

impl Stop<'_> {
    ghost use Rattle.std.specs.Prelude.{◌≡◌, ◌<◌, ◌^◌};
    ghost use Rattle.nest_tree.specs.View.{statement_of};
    ghost use Rattle.nest_model.specs.Instances.{works_in};

    /// How many pieces of work stand in the statement.
    pub fn works(&self) -> u32
        requires { works_in (statement_of self.now.item.now) < 2 ^ 32 }
        ensures { result ≡ works_in (statement_of self.now.item.now) }
    {
        works_in_item(self.item)
    }
}

/// A walk of a program, as far as it is left. It goes into each loop that isn't marked, in each
/// trip, and stops at every other statement but a CONTINUE. It takes no memory.
#[derive(Clone, Copy)]
pub struct Cursor<'a> {
    pub(crate) program: &'a Program,
    pub(crate) marks: &'a [bool],
    pub(crate) path: Path,
    pub(crate) frames: Frames<'a>,
    pub(crate) rest: Part<'a>,
    ghost sound: { IsTrue (is_sound (walk_in (tree_of program.now) marks.now) (rounds_of path)
        (levels_to frames.all path.depth) (stretch_of rest)) },
    ghost texts: { AreInText (tree_of program.now) (walk_in (tree_of program.now) marks.now)
        (rounds_of path) (levels_to frames.all path.depth) (stretch_of rest) } by { AreInText-prop
            (tree_of program.now) (walk_in (tree_of program.now) marks.now) (rounds_of path)
            (levels_to frames.all path.depth) (stretch_of rest) },
}

impl<'a> Cursor<'a> {
    ghost use Rattle.std.specs.Prelude.{◌≡◌, ◌<◌, [], ◌∷◌, ◌++◌, length, IfSome, MatchOption, true, false};
    ghost use Rattle.nest_tree.specs.Tree.{param_values};
    ghost use Rattle.nest_model.specs.Instances.{head_trips, with_loop, works_in};
    ghost use Rattle.std.specs.Prelude.{Some};
    ghost use Rattle.std.specs.List.{All, Contains, flat_map, list_all};
    ghost use Rattle.nest_tree.specs.Guards.{holds};
    ghost use Rattle.nest_tree.specs.Loads.{guard_forms};
    ghost use Rattle.nest_walk.specs.Paths.{Round};
    ghost use Rattle.nest_walk.specs.Walkable.{is_small_at};
    ghost use Rattle.nest_tree.specs.View.{statement_of, statements_from};
    ghost use Rattle.nest_tree.specs.WellFormed.{is_number_of, loops_of};
    ghost use Rattle.nest_model.specs.Visits.{every, stops_in, visits, visits_in, visits_of};
    ghost use Rattle.nest_walk.specs.Cursors.{is_reached, left_of, loops_in, marks_in, moves_to_go, rounds_in, tree_in, visit_at, visits_at};
    ghost use Rattle.nest_walk.specs.Frames.{head_of};
    ghost use Rattle.nest_walk.specs.Places.{numbers_of};
    ghost use Rattle.nest_walk.specs.Texts.{IsInText, StandFrom, placed_in, works};
    ghost use Rattle.nest_walk.specs.TripsLeft.{trips_left};
    ghost use Rattle.nest_walk.specs.Walks.{enters_but};

    /// The walk of a program, which stops at the loops that are marked, by their numbers from 1.
    pub fn new(program: &'a Program, marks: &'a [bool]) -> Self
        ensures visits { left_of result ≡ visits (tree_of program.now) (enters_but marks.now) }
        ensures program { tree_in result ≡ tree_of program.now }
        ensures marks { marks_in result ≡ marks.now }
    {
        Cursor {
            program,
            marks,
            path: Path::new(),
            frames: Frames::ended(1),
            rest: Part {
                items: &program.items,
                place: 1,
                first: 1,
            },
        }
    }

    /// A walk with no stop.
    pub fn none(program: &'a Program) -> Self
        ensures visits { left_of result ≡ [] }
        ensures program { tree_in result ≡ tree_of program.now }
    {
        Cursor {
            program,
            marks: &[],
            path: Path::new(),
            frames: Frames::ended(1),
            rest: Part {
                items: &[],
                place: 1,
                first: 1,
            },
        }
    }

    /// In place of what is left, the walk over the statement of a stop alone, where these loops are
    /// round it. It goes into every loop, and its stops are numbered as the pieces of work are.
    pub fn restart(&mut self, path: &Path, stop: Stop<'a>)
        requires reached { IsTrue (is_reached (tree_in self.old) (rounds_of path.now) stop) }
        requires text { StandFrom (works (tree_in self.old)) stop.first
            (placed_in every (numbers_of (rounds_of path.now)) (statement_of stop.item.now)) }
        ensures visits { left_of self.new ≡ visits_of (param_values (tree_in self.old)) every
            (statement_of stop.entry.item.now) stop.entry.first stop.entry.first
            (loops_in (tree_in self.old) (rounds_of path.now)) }
        ensures program { tree_in self.new ≡ tree_in self.old }
        ensures marks { marks_in self.new ≡ [] }
    {
        let Stop { item, first, .. } = stop;
        self.frames.end(path.depth(), first + works_in_item(item));
        self.marks = &[];
        self.path = *path;
        self.rest = Part {
            items: from_ref(item),
            place: first,
            first,
        };
    }

    /// In place of what is left, the walk over the body of a loop alone, once for each of these
    /// values of its DO variable, which are among those of its trips, where these loops are round it.
    pub fn restart_trips(&mut self, path: &Path, stop: Stop<'a>, nest: &'a Nest, trips: Trips)
        requires reached { IsTrue (is_reached (tree_in self.old) (rounds_of path.now) stop) }
        requires text { StandFrom (works (tree_in self.old)) stop.first
            (placed_in every (numbers_of (rounds_of path.now)) (statement_of stop.item.now)) }
        requires nest { stop.item.now ≡ Item.Loop nest.now }
        requires trips { All
            (Contains (head_trips (param_values (tree_in self.old)) (head_of nest.now)
            (loops_in (tree_in self.old) (rounds_of path.now)))) (trips_left trips) }
        ensures visits { left_of self.new
            ≡ flat_map (λ v. visits_in (param_values (tree_in self.old)) every
            (statements_from nest.now.items.items) stop.entry.first stop.entry.first
            (with_loop (loops_in (tree_in self.old) (rounds_of path.now)) nest.now.number v))
            (trips_left trips) }
        ensures program { tree_in self.new ≡ tree_in self.old }
        ensures marks { marks_in self.new ≡ [] }
    {
        let first = stop.first;
        let end = first + work_count(&nest.items);
        let depth = path.depth();
        let body = Part {
            items: &nest.items,
            place: first,
            first,
        };
        self.frames.end(depth, end);
        self.frames.put(
            depth,
            Frame {
                body,
                later: trips,
                behind: &[],
            },
        );
        self.marks = &[];
        self.path = *path;
        self.path.push(nest.number, 0);
        self.rest = Part {
            items: &[],
            place: end,
            first: end,
        };
    }

    /// The program that it walks.
    pub fn program(&self) -> &'a Program
        ensures { tree_of result.now ≡ tree_in self.now }
    {
        self.program
    }

    /// The loops round the stop that was given last, with their values.
    pub fn path(&self) -> &Path
        ensures { rounds_of result.now ≡ rounds_in self.now }
    {
        &self.path
    }

    /// The next stop, until there is none.
    #[inline(always)]
    pub fn next(&mut self) -> Option<Stop<'a>>
        ensures stop { MatchOption result (left_of self.old ≡ []) (λ s. left_of self.old
            ≡ visit_at (tree_in self.new) (rounds_in self.new) s ∷ left_of self.new) }
        ensures end { MatchOption result (left_of self.new ≡ []) (λ s. Unit) }
        ensures reached { IfSome result
            (λ s. IsTrue (is_reached (tree_in self.new) (rounds_in self.new) s)) }
        ensures text { IfSome result
            (λ s. IsInText (tree_in self.new) (enters_but (marks_in self.new))
            (numbers_of (rounds_in self.new)) (statement_of s.item.now) s.place s.first) }
        ensures program { tree_in self.new ≡ tree_in self.old }
        ensures marks { marks_in self.new ≡ marks_in self.old }
    {
        loop {
            if let Some((item, behind)) = self.rest.items.split_first() {
                if let Some(stop) = self.pass(item, behind) {
                    return Some(stop);
                }
            } else if !self.turn() {
                return None;
            }
        }
    }

    // The first statement that is left: a stop, or a loop that is entered, or nothing.
    #[inline(always)]
    fn pass(&mut self, item: &'a Item, behind: &'a [Item]) -> Option<Stop<'a>>
        requires { self.old.rest.items.now ≡ item.now ∷ behind.now }
        ensures stop { MatchOption result (left_of self.new ≡ left_of self.old)
            (λ s. left_of self.old ≡ visit_at (tree_in self.new) (rounds_in self.new) s
            ∷ left_of self.new) }
        ensures reached { IfSome result
            (λ s. IsTrue (is_reached (tree_in self.new) (rounds_in self.new) s)) }
        ensures text { IfSome result
            (λ s. IsInText (tree_in self.new) (enters_but (marks_in self.new))
            (numbers_of (rounds_in self.new)) (statement_of s.item.now) s.place s.first) }
        ensures moved { moves_to_go self.new < moves_to_go self.old }
        ensures program { tree_in self.new ≡ tree_in self.old }
        ensures marks { marks_in self.new ≡ marks_in self.old }
    {
        match item {
            Item::Loop(nest) => {
                if is_marked(self.marks, nest.number) {
                    let works = work_count(&nest.items);
                    Some(self.advance(item, behind, 1, works))
                } else {
                    self.come_to(item, nest, behind);
                    None
                }
            }
            Item::Continue(_) => {
                let _ = self.advance(item, behind, 0, 0);
                None
            }
            Item::Assign(..) | Item::Print(..) => Some(self.advance(item, behind, 1, 1)),
        }
    }

    // Past a statement, with so many stops and pieces of work in it.
    #[inline(always)]
    pub(crate) fn advance(
        &mut self,
        item: &'a Item,
        behind: &'a [Item],
        stops: u32,
        works: u32,
    ) -> Stop<'a>
        requires rest { self.old.rest.items.now ≡ item.now ∷ behind.now }
        requires stops { stops ≡ stops_in (enters_but (marks_in self.old)) (statement_of item.now) }
        requires works { works ≡ works_in (statement_of item.now) }
        ensures left { left_of self.old ≡ visits_at (tree_in self.old) (marks_in self.old)
            (rounds_in self.old) result ++ left_of self.new }
        ensures rounds { rounds_in self.new ≡ rounds_in self.old }
        ensures reached { IsTrue (is_reached (tree_in self.old) (rounds_in self.old) result) }
        ensures text { IsInText (tree_in self.old) (enters_but (marks_in self.old))
            (numbers_of (rounds_in self.old))
            (statement_of result.item.now) result.place result.first }
        ensures item { result.item.now ≡ item.now }
        ensures moved { moves_to_go self.new < moves_to_go self.old }
        ensures program { tree_in self.new ≡ tree_in self.old }
        ensures marks { marks_in self.new ≡ marks_in self.old }
    {
        let Part { place, first, .. } = self.rest;
        self.rest = Part {
            items: behind,
            place: place + stops,
            first: first + works,
        };
        Stop { item, place, first }
    }

    // Into a loop that isn't marked, or past it where it has no trip.
    pub(crate) fn come_to(&mut self, item: &'a Item, nest: &'a Nest, behind: &'a [Item])
        requires rest { self.old.rest.items.now ≡ item.now ∷ behind.now }
        requires nest { item.now ≡ Item.Loop nest.now }
        requires entered { enters_but (marks_in self.old) nest.now.number ≡ true }
        ensures left { left_of self.new ≡ left_of self.old }
        ensures moved { moves_to_go self.new < moves_to_go self.old }
        ensures program { tree_in self.new ≡ tree_in self.old }
        ensures marks { marks_in self.new ≡ marks_in self.old }
    {
        let trips = Trips::of_nest(self.program, nest, &self.path);
        if trips.is_empty() {
            let stops = stop_count(self.marks, &nest.items);
            let works = work_count(&nest.items);
            let _ = self.advance(item, behind, stops, works);
        } else {
            self.enter(nest, behind, trips);
        }
    }

    // Into a loop, to its first trip.
    fn enter(&mut self, nest: &'a Nest, behind: &'a [Item], trips: Trips)
        requires rest { self.old.rest.items.now ≡ Item.Loop nest.now ∷ behind.now }
        requires entered { enters_but (marks_in self.old) nest.now.number ≡ true }
        requires trips { trips_left trips ≡ head_trips (param_values (tree_in self.old))
            (head_of nest.now) (loops_in (tree_in self.old) (rounds_in self.old)) }
        requires some { 0 < length (trips_left trips) }
        ensures left { left_of self.new ≡ left_of self.old }
        ensures moved { moves_to_go self.new < moves_to_go self.old }
        ensures program { tree_in self.new ≡ tree_in self.old }
        ensures marks { marks_in self.new ≡ marks_in self.old }
    {
        let mut later = trips;
        let value = later.take();
        let body = Part {
            items: &nest.items,
            ..self.rest
        };
        let frame = Frame {
            body,
            later,
            behind,
        };
        let depth = self.path.depth();
        self.frames.put(depth, frame);
        self.path.push(nest.number, value);
        self.rest = body;
    }

    // The next trip of the innermost loop, or past it where it has none; whether there was a loop.
    #[inline(always)]
    pub(crate) fn turn(&mut self) -> bool
        requires { self.old.rest.items.now ≡ [] }
        ensures kept { left_of self.new ≡ left_of self.old }
        ensures end { result ≡ false → left_of self.old ≡ [] }
        ensures moved { result ≡ true → moves_to_go self.new < moves_to_go self.old }
        ensures program { tree_in self.new ≡ tree_in self.old }
        ensures marks { marks_in self.new ≡ marks_in self.old }
    {
        let depth = self.path.depth();
        if depth == 0 {
            return false;
        }
        let mut frame = self.frames.at(depth - 1);
        if frame.later.is_empty() {
            self.rest.items = frame.behind;
            self.path.pop();
        } else {
            self.path.set(frame.later.take());
            self.frames.put_later(depth - 1, frame.later);
            self.rest = frame.body;
        }
        true
    }

    // Whether a comparison with small sides holds at the stop that was given last.
    pub(crate) fn holds(&self, guard: &Guard) -> bool
        requires numbered { IsTrue
            (list_all (λ (r : Round). is_number_of (loops_of (tree_in self.now).items) r.number)
            (rounds_in self.now)) }
        requires small { IsTrue
            (list_all (is_small_at (param_values (tree_in self.now))
            (loops_in (tree_in self.now) (rounds_in self.now))) (guard_forms (Some guard.now))) }
        ensures { result ≡ holds (Some guard.now) (loops_in (tree_in self.now) (rounds_in self.now))
            (param_values (tree_in self.now)) }
    {
        let left = value_at(&guard.left, &self.path, &self.program.params);
        let right = value_at(&guard.right, &self.path, &self.program.params);
        guard.op.holds(left, right)
    }
}
