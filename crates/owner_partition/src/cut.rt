// Which loops are what.

ghost use Rattle.std.specs.Prelude.{◌≡◌, ◌-◌, ◌<◌, ◌^◌, IfOk, Some, [], length, map, replicate, slice_get, slice_index_or, false};
ghost use Rattle.std.specs.List.{list_any};
ghost use Rattle.nest_tree.specs.View.{statement_of, statements_from};
ghost use Rattle.nest_model.specs.Visits.{stops_in, stops_of};
ghost use Rattle.nest_walk.specs.Walks.{enters_but};
ghost use Rattle.owner_partition.specs.Cuts.{plain_cut, privates_of};
ghost use Rattle.owner_partition.specs.Marks.{is_closed, is_dealt, is_doall, is_sum_mark, mark_of};

use nest_tree::{Item, Listed};
use std::alloc::{AllocError, Global};
use std::marker::Model;

/// What a loop is in a plan.
#[derive(Clone, Copy, Debug, PartialEq, Eq)]
pub enum Mark {
    /// Every processor runs through it, and phases stand in it.
    Outer,
    /// One phase, whose iterations are dealt to the processors.
    Doall,
    /// The same, and each processor adds up scalars of its own, which it adds to the shared ones
    /// behind its iterations.
    Sum,
    /// One phase, which one processor runs.
    Single,
    /// A loop inside a phase.
    Inner,
}

impl Mark {
    /// Whether a walk of the phases stops at a loop with this mark, in place of going into it.
    pub fn is_closed(self) -> bool
        ensures { result ≡ is_closed self }
    {
        match self {
            Mark::Outer => false,
            Mark::Doall | Mark::Sum | Mark::Single | Mark::Inner => true,
        }
    }

    /// Whether the trips of a loop with this mark are dealt to the processors.
    pub fn is_doall(self) -> bool
        ensures { result ≡ is_doall self }
    {
        match self {
            Mark::Doall | Mark::Sum => true,
            Mark::Outer | Mark::Single | Mark::Inner => false,
        }
    }

    /// Whether processors add up scalars of their own in a loop with this mark.
    pub fn is_sum(self) -> bool
        ensures { result ≡ is_sum_mark self }
    {
        match self {
            Mark::Sum => true,
            Mark::Outer | Mark::Doall | Mark::Single | Mark::Inner => false,
        }
    }
}

/// The private scalars of a loop, of which each processor has a cell of its own there: numbers of
/// variables, from 1.
pub type Privates = Listed<u32>;

/// Which loops are what: the marks of a program's loops and their private scalars, by their numbers
/// from 1. Contracts see the two lists.
#[derive(Drop)]
pub struct Cut {
    marks: Vec<Mark>,
    closed: Vec<bool>,
    privates: Vec<Privates>,
}

impl Model for Cut {
    ghost use Rattle.std.specs.Prelude.{◌≡◌, map};
    ghost use Rattle.owner_partition.specs.Cuts.{Cutting};
    ghost use Rattle.owner_partition.specs.Marks.{is_closed};

    ghost Value = { Cutting };

    ghost view = { λ c. record { marks = c.marks.items; privates = c.privates.items } };

    ghost invariant = { λ c. c.closed.items ≡ map is_closed c.marks.items };
}

impl Cut {
    /// The cut with these marks and these private scalars.
    pub fn new(alloc: Global, marks: Vec<Mark>, privates: Vec<Privates>) -> Result<Self, AllocError>
        ensures { IfOk result (λ c. c ≡ record { marks = marks.items; privates = privates.items }) }
    {
        let mut closed = Vec::new(alloc);
        for mark in marks.iter() {
            closed.push(mark.is_closed())?;
        }
        Ok(Cut {
            marks,
            closed,
            privates,
        })
    }

    /// The cut with these marks, and no private scalars.
    pub fn plain(alloc: Global, marks: Vec<Mark>) -> Result<Self, AllocError>
        ensures { IfOk result (λ c. c ≡ plain_cut marks.items) }
    {
        let privates = no_privates(alloc, marks.len())?;
        Cut::new(alloc, marks, privates)
    }

    /// The marks, in order.
    pub fn as_slice(&self) -> &[Mark]
        ensures { result.now ≡ self.now.marks }
    {
        self.marks.as_slice()
    }

    /// The mark of the loop with this number, from 1; a loop without one counts as Inner.
    pub fn mark(&self, number: u32) -> Mark
        ensures { result ≡ mark_of self.now.marks number }
    {
        let place = (number as usize).saturating_sub(1);
        if place < self.marks.len() {
            self.marks[place]
        } else {
            Mark::Inner
        }
    }

    /// Whether some loop is a Sum loop.
    pub fn has_sum(&self) -> bool
        ensures { result ≡ list_any is_sum_mark self.now.marks }
    {
        self.marks.iter().any(|mark| mark.is_sum())
    }

    /// Whether the trips of the loop with this number, from 1, are dealt to the processors.
    pub fn is_doall(&self, number: u32) -> bool
        ensures { result ≡ is_doall (mark_of self.now.marks number) }
    {
        self.mark(number).is_doall()
    }

    /// Whether a static phase is a loop whose trips are dealt.
    pub fn is_dealt(&self, item: &Item) -> bool
        ensures { result ≡ is_dealt self.now.marks (statement_of item.now) }
    {
        match item {
            Item::Loop(nest) => self.is_doall(nest.number),
            Item::Assign(..) | Item::Print(..) | Item::Continue(_) => false,
        }
    }

    /// The private scalars of each loop, in order.
    pub fn privates(&self) -> &[Privates]
        ensures { result.now ≡ self.now.privates }
    {
        self.privates.as_slice()
    }

    /// The private scalars of the loop with this number, from 1; none where it has no list.
    pub fn privates_of(&self, number: u32) -> &[u32]
        ensures { result.now ≡ privates_of self.now.privates number }
    {
        let place = (number as usize).saturating_sub(1);
        if place < self.privates.len() {
            self.privates[place].as_slice()
        } else {
            &[]
        }
    }

    /// Of each loop, whether a walk of the phases stops there.
    pub fn closed(&self) -> &[bool]
        ensures { result.now ≡ map is_closed self.now.marks }
    {
        self.closed.as_slice()
    }
}

// No private scalars of so many loops.
fn no_privates(alloc: Global, count: usize) -> Result<Vec<Privates>, AllocError>
    ensures { IfOk result (λ lists. lists.items ≡ replicate count []) }
{
    let mut lists = Vec::with_capacity(alloc, count)?;
    'fill: while lists.len() < count {
        lists.push(Listed::from_vec(Vec::new(alloc)))?;
    }
    Ok(lists)
}

/// Whether a walk of the phases stops at the loop with this number, from 1, where these answers are
/// given for the loops in order; it enters a loop without one.
pub fn is_closed_at(closed: &[bool], number: u32) -> bool
    ensures { result ≡ slice_index_or closed.now (number - 1) false }
{
    let place = (number as usize).saturating_sub(1);
    place < closed.len() && closed[place]
}

/// The mark at this place, from 0.
pub fn mark_in(marks: &[Mark], place: usize) -> Mark
    requires { place < length marks.now }
    ensures { slice_get marks.now place ≡ Some result }
{
    marks[place]
}

// How many static phases stand in these statements.
#[cycle(phases)]
pub(crate) fn phase_count(closed: &[bool], items: &[Item]) -> u32
    requires { stops_of (enters_but closed.now) (statements_from items.now) < 2 ^ 32 }
    ensures { result ≡ stops_of (enters_but closed.now) (statements_from items.now) }
{
    let mut count = 0;
    for item in items {
        count += phases_in(closed, item);
    }
    count
}

#[cycle(phases)]
pub(crate) fn phases_in(closed: &[bool], item: &Item) -> u32
    requires { stops_in (enters_but closed.now) (statement_of item.now) < 2 ^ 32 }
    ensures { result ≡ stops_in (enters_but closed.now) (statement_of item.now) }
{
    match item {
        Item::Loop(nest) => {
            if is_closed_at(closed, nest.number) {
                1
            } else {
                phase_count(closed, &nest.items)
            }
        }
        Item::Assign(..) | Item::Print(..) => 1,
        Item::Continue(_) => 0,
    }
}
