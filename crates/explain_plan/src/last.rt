// The last store of an element in front of a load.

use comm_system::phase::Phase;
use nest_tree::{Access, Item, Program};
use nest_walk::{Instances, Path, value_at};
use owner_partition::{Anchor, Dist};
use reason_witness::account::{Account, Reason, Why};
use reason_witness::found::Finding;
use reason_witness::meeting::{Meeting, Touch, Witness};
use std::alloc::{AllocError, Global};
use sync_plan::Plan;

// How many instances are gone through at most: the last stores in front of loads behind them aren't
// looked up.
const MOST_INSTANCES: u32 = 400_000;

// An instance: its line, and the loops round it.
#[derive(Clone, Copy)]
struct Place {
    line: u32,
    path: Path,
}

// A load of an array's element, by the place of its reason, and the last store of the element so far.
#[derive(Drop)]
struct Load<'m> {
    place: usize,
    meeting: &'m Meeting,
    last: Option<Place>,
    is_met: bool,
}

/// A program under a plan, with its static phases.
#[derive(Clone, Copy)]
pub(crate) struct Setting<'s> {
    pub(crate) program: &'s Program,
    pub(crate) plan: &'s Plan,
    pub(crate) phases: &'s [Phase<'s>],
}

// Whether an instance stands in a line, at these values of the loops.
fn is_at(touch: &Touch, line: u32, path: &Path) -> bool {
    touch.line == line
        && touch.loops.iter().all(|(number, value)| i128::from(path.value_of(*number)) == *value)
}

// The load of a meeting of two processors, where an array's element is stored and then loaded.
fn load_of(place: usize, reason: &Reason) -> Option<Load<'_>> {
    let Why::Found(found) = &reason.why else {
        return None;
    };
    let Finding::Solved(_, Witness::Meeting(meeting)) = &found.finding else {
        return None;
    };
    let Meeting { first, second, .. } = meeting;
    let is_load = first.stores && !second.stores && !second.subscripts.is_empty();
    if is_load && first.processor.is_some() {
        Some(Load {
            place,
            meeting,
            last: None,
            is_met: false,
        })
    } else {
        None
    }
}

impl Load<'_> {
    // Looks at an instance that comes next, which stores this if anything.
    fn pass(&mut self, program: &Program, line: u32, path: &Path, stored: Option<&Access>) {
        if self.is_met {
            return;
        }
        if is_at(&self.meeting.second, line, path) {
            self.is_met = true;
        } else if let Some(access) = stored {
            if is_of(program, access, path, &self.meeting.second) {
                self.last = Some(Place { line, path: *path });
            }
        }
    }
}

// Whether an access on a path is of the element that is touched.
fn is_of(program: &Program, access: &Access, path: &Path, touch: &Touch) -> bool {
    if access.variable != touch.variable {
        return false;
    }
    let forms = access.subscripts.as_slice();
    forms.len() == touch.subscripts.len()
        && forms.iter().zip(&touch.subscripts).all(|(form, subscript)| {
            i128::from(value_at(form, path, &program.params)) == *subscript
        })
}

// The processor that an anchor names at a place.
fn owner_at(program: &Program, anchor: &Anchor, workers: u32, path: &Path) -> Option<i128> {
    let value = i128::from(value_at(&anchor.form, path, &program.params));
    match anchor.dist {
        Dist::Block(length) => value.checked_div_euclid(i128::from(length)),
        Dist::Cyclic => value.checked_rem_euclid(i128::from(workers)),
    }
}

impl Setting<'_> {
    /// For each reason the last store in front of the load that is told of, where it is another one
    /// than the store that is told of, of another processor than the load. An error says that memory
    /// ran out.
    pub(crate) fn last_stores(
        self,
        alloc: Global,
        account: &Account,
    ) -> Result<Vec<Option<Touch>>, AllocError> {
        let mut loads = Vec::new(alloc);
        let mut found = Vec::new(alloc);
        for (place, reason) in account.reasons.iter().enumerate() {
            if let Some(load) = load_of(place, reason) {
                loads.push(load)?;
            }
            found.push(None)?;
        }
        if !loads.is_empty() {
            self.walk(loads.as_mut_slice());
        }
        for load in &loads {
            if load.place < found.len() {
                found[load.place] = self.store_of(alloc, load)?;
            }
        }
        Ok(found)
    }

    // Goes through the instances in order, until each load was met.
    fn walk(self, loads: &mut [Load]) {
        let mut instances = Instances::new(self.program);
        for _ in 0..MOST_INSTANCES {
            let Some(stop) = instances.next() else {
                return;
            };
            let (stored, line) = match stop.item {
                Item::Assign(access, _, _, line) => (Some(access), *line),
                Item::Print(_, line) => (None, *line),
                Item::Loop(_) | Item::Continue(_) => continue,
            };
            let mut is_left = false;
            for load in loads.iter_mut() {
                load.pass(self.program, line, instances.path(), stored);
                is_left = is_left || !load.is_met;
            }
            if !is_left {
                return;
            }
        }
    }

    // The last store in front of a load, where it is another one than is told of, of another
    // processor than the load.
    fn store_of(self, alloc: Global, load: &Load) -> Result<Option<Touch>, AllocError> {
        let Meeting { first, second, .. } = load.meeting;
        let Some(place) = load.last else {
            return Ok(None);
        };
        if !load.is_met || is_at(first, place.line, &place.path) {
            return Ok(None);
        }
        let Some(touch) = self.touch(alloc, second, place)? else {
            return Ok(None);
        };
        if touch.processor.is_none() || touch.processor == second.processor {
            Ok(None)
        } else {
            Ok(Some(touch))
        }
    }

    // A store of the element that is loaded, at this place.
    fn touch(
        self,
        alloc: Global,
        second: &Touch,
        place: Place,
    ) -> Result<Option<Touch>, AllocError> {
        let mut number = 0u32;
        for phase in self.phases {
            number = number.saturating_add(1);
            for reference in &phase.references {
                if reference.stores && reference.line == place.line {
                    let mut loops = Vec::new(alloc);
                    for around in &reference.around {
                        let value = place.path.value_of(around.nest.number);
                        loops.push((around.nest.number, i128::from(value)))?;
                    }
                    let processor = match self.plan.anchor(number) {
                        Some(anchor) => {
                            owner_at(self.program, anchor, self.plan.workers, &place.path)
                        }
                        None => None,
                    };
                    return Ok(Some(Touch {
                        processor,
                        stores: true,
                        variable: second.variable,
                        subscripts: Vec::from_slice(alloc, &second.subscripts)?,
                        line: place.line,
                        loops,
                    }));
                }
            }
        }
        Ok(None)
    }
}
