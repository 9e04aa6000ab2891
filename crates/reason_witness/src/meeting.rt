// What a whole solution says: two iterations that meet, or a loop that makes no trip.

use comm_system::group::Group;
use comm_system::reference::{Reference, Target};
use comm_system::subject::Subject;
use nest_tree::{Affine, Program};
use owner_partition::Anchor;
use std::alloc::{AllocError, Global};
use sync_plan::Plan;

/// An access in an iteration.
#[derive(Drop)]
pub struct Touch {
    /// The processor that owns the instance; none of two trips of a loop.
    pub processor: Option<i128>,
    pub stores: bool,
    /// The variable, from 1, and its subscripts; none of a scalar.
    pub variable: u32,
    pub subscripts: Vec<i128>,
    /// The line of the statement, from 1.
    pub line: u32,
    /// The loops round it, by number from 1, with their values, from the outermost.
    pub loops: Vec<(u32, i128)>,
}

/// Two accesses of one element, of which the first comes before the second, and the owners that the
/// producers between them name.
#[derive(Drop)]
pub struct Meeting {
    pub first: Touch,
    pub second: Touch,
    pub producers: Vec<i128>,
}

/// What a whole solution of an obligation's system says.
#[derive(Drop)]
pub enum Witness {
    /// That two iterations meet.
    Meeting(Meeting),
    /// That a loop makes no trip where those outside it have these values: each by its number from 1,
    /// from the outermost.
    ZeroTrip(Vec<(u32, i128)>),
}

// Values of a system's unknowns, from number 1.
#[derive(Clone, Copy)]
struct Values<'v> {
    program: &'v Program,
    values: &'v [i128],
}

// An access with the number of its first unknown: value and trip of each loop, then its free subscripts.
#[derive(Clone, Copy)]
struct Side<'s, 'a> {
    reference: &'s Reference<'a>,
    first: usize,
}

// How many unknowns the owner of an anchor has: itself, and the round where places are dealt in turn.
fn owner_unknowns(anchor: Option<&Anchor>) -> usize {
    match anchor {
        Some(anchor) => comm_system::owner_unknowns(anchor.dist) as usize,
        None => 2,
    }
}

// How many subscripts of a target are unknowns: those of an array that is printed whole.
fn free_count(program: &Program, target: &Target) -> usize {
    match target {
        Target::Element(_) => 0,
        Target::Whole(variable) => {
            let place = (*variable as usize).saturating_sub(1);
            match program.variables.get(place) {
                Some(variable) => variable.bounds.len(),
                None => 0,
            }
        }
    }
}

impl<'s, 'a> Side<'s, 'a> {
    // The first access of a system.
    fn of_first(program: &Program, reference: &'s Reference<'a>) -> Self {
        Side {
            reference,
            first: program.params.len().saturating_add(1),
        }
    }

    // The number of the unknown behind its own.
    fn behind(self, program: &Program) -> usize {
        self.free()
            .saturating_add(free_count(program, &self.reference.target))
    }

    // The number of its first free subscript.
    fn free(self) -> usize {
        self.first
            .saturating_add(self.reference.around.len().saturating_mul(2))
    }

    // The unknown for the value of the loop with this number, 0 where the loop isn't round it.
    fn loop_unknown(self, number: u32) -> usize {
        for (place, around) in self.reference.around.iter().enumerate() {
            if around.nest.number == number {
                return self.first.saturating_add(place.saturating_mul(2));
            }
        }
        0
    }
}

impl Values<'_> {
    // The value of an unknown by its number from 1, 0 where there is none.
    fn at(self, unknown: usize) -> i128 {
        match unknown.checked_sub(1) {
            Some(place) => self.values.get(place).copied().unwrap_or(0),
            None => 0,
        }
    }

    // The value of a form at the loops of an access.
    fn of_form(self, side: Side, form: &Affine) -> i128 {
        let mut sum = i128::from(form.constant());
        for &(number, coefficient) in form.loops() {
            let value = self.at(side.loop_unknown(number));
            sum = sum.saturating_add(i128::from(coefficient).saturating_mul(value));
        }
        for &(number, coefficient) in form.params() {
            let value = self.at(number as usize);
            sum = sum.saturating_add(i128::from(coefficient).saturating_mul(value));
        }
        sum
    }

    // The subscripts of an access.
    fn subscripts(self, alloc: Global, side: Side) -> Result<Vec<i128>, AllocError> {
        let mut found = Vec::new(alloc);
        match &side.reference.target {
            Target::Element(access) => {
                for form in access.subscripts.as_slice() {
                    found.push(self.of_form(side, form))?;
                }
            }
            Target::Whole(_) => {
                for place in 0..free_count(self.program, &side.reference.target) {
                    found.push(self.at(side.free().saturating_add(place)))?;
                }
            }
        }
        Ok(found)
    }

    // The first so many of the loops round an access, with their values.
    fn loops(
        self,
        alloc: Global,
        side: Side,
        count: usize,
    ) -> Result<Vec<(u32, i128)>, AllocError> {
        let mut found = Vec::new(alloc);
        for (place, around) in side.reference.around.iter().take(count).enumerate() {
            let unknown = side.first.saturating_add(place.saturating_mul(2));
            found.push((around.nest.number, self.at(unknown)))?;
        }
        Ok(found)
    }

    // An access by the processor of this unknown, if there is one.
    fn touch(self, alloc: Global, side: Side, owner: Option<usize>) -> Result<Touch, AllocError> {
        Ok(Touch {
            processor: match owner {
                Some(unknown) => Some(self.at(unknown)),
                None => None,
            },
            stores: side.reference.stores,
            variable: side.reference.target.variable(),
            subscripts: self.subscripts(alloc, side)?,
            line: side.reference.line,
            loops: self.loops(alloc, side, side.reference.around.len())?,
        })
    }
}

/// What values of the unknowns say of a group of a plan's systems.
pub(crate) fn witness_of(
    alloc: Global,
    program: &Program,
    plan: &Plan,
    group: &Group,
    values: &[i128],
) -> Result<Witness, AllocError> {
    let values = Values { program, values };
    let (a, b) = match &group.subject {
        Subject::Trips(_, a, b) => (*a, *b),
        Subject::Slot(_, _, a, b) => (*a, *b),
        Subject::ZeroTrip(inside) => {
            let side = Side::of_first(program, inside.store);
            return Ok(Witness::ZeroTrip(values.loops(alloc, side, inside.outside)?));
        }
    };
    Ok(Witness::Meeting(meeting_of(alloc, values, plan, group, a, b)?))
}

// What they say of the two accesses of a group.
fn meeting_of(
    alloc: Global,
    values: Values,
    plan: &Plan,
    group: &Group,
    a: &Reference,
    b: &Reference,
) -> Result<Meeting, AllocError> {
    let program = values.program;
    let first = Side::of_first(program, a);
    let second = Side {
        reference: b,
        first: first.behind(program),
    };
    let mut producers = Vec::new(alloc);
    let mut owners = (None, None);
    if let Subject::Slot(slot, waits, _, _) = &group.subject {
        let q = second.behind(program);
        let p = q.saturating_add(owner_unknowns(plan.anchor(slot.s)));
        let mut unknown = p.saturating_add(owner_unknowns(plan.anchor(slot.t)));
        owners = (Some(q), Some(p));
        for producer in waits.producers.iter() {
            producers.push(values.at(unknown))?;
            unknown = unknown.saturating_add(owner_unknowns(Some(producer.anchor)));
        }
    }
    Ok(Meeting {
        first: values.touch(alloc, first, owners.0)?,
        second: values.touch(alloc, second, owners.1)?,
        producers,
    })
}
