// How long the rows that steps make are kept: until the last step that names them.

ghost use Rattle.std.specs.Prelude.{◌≡◌, [], ◌∷◌, IfOk};
ghost use Rattle.farkas_cert.specs.Named.{AreForgotten, AreLast, AreTakenDown};

use crate::certificate::Step;
use crate::system::{Coefs, Row};
use std::alloc::{AllocError, Global};

// For each of these steps, over so many rows of a system, the number of the last one that names its
// row, and its own where none does.
#[derive(Drop)]
pub(crate) struct Uses<'a> {
    count: usize,
    taken: &'a [Step],
    last: Vec<usize>,
    ghost each: { AreLast count taken.now last.items },
}

// Takes down that the step with this number names this row.
fn take_down_one(last: &mut Vec<usize>, count: usize, number: usize, term: (u64, i128))
    ensures { AreTakenDown count number (term ∷ []) last.old.items last.new.items }
{
    let name = term.0 as usize;
    if name <= count {
        return;
    }
    let place = name - count - 1;
    if place >= last.len() {
        return;
    }
    last[place] = number;
}

// Takes down which rows the step with this number names.
fn take_down(last: &mut Vec<usize>, count: usize, number: usize, terms: &[(u64, i128)])
    ensures { AreTakenDown count number terms.now last.old.items last.new.items }
{
    for term in terms {
        take_down_one(last, count, number, *term);
    }
}

impl<'a> Uses<'a> {
    // Those of steps over so many rows of a system.
    pub(crate) fn new(alloc: Global, count: usize, taken: &'a [Step]) -> Result<Self, AllocError>
        ensures count { IfOk result (λ uses. uses.count ≡ count) }
        ensures taken { IfOk result (λ uses. uses.taken.now ≡ taken.now) }
    {
        let mut last = Vec::with_capacity(alloc, taken.len())?;
        for (index, step) in taken.iter().enumerate() {
            last.push(index + 1)?;
            take_down(&mut last, count, index + 1, step.terms.as_slice());
        }
        Ok(Uses { count, taken, last })
    }

    // Empties the row with this place, from 0, if its last use is the step that made the last row.
    fn forget_at(&self, alloc: Global, made: &mut Vec<Row>, place: usize)
        ensures { AreForgotten self.now.count self.now.taken.now made.old.items made.new.items }
    {
        let number = made.len();
        if number >= self.taken.len() || place >= number {
            return;
        }
        if self.last[place] == number {
            made[place].coefs = Coefs::none(alloc);
        }
    }

    // Empties those of the made rows that these terms name whose last use is the step that made the
    // last row.
    fn forget_named(&self, alloc: Global, made: &mut Vec<Row>, terms: &[(u64, i128)])
        ensures { AreForgotten self.now.count self.now.taken.now made.old.items made.new.items }
    {
        for &(name, _) in terms {
            let place = (name as usize).saturating_sub(self.count);
            self.forget_at(alloc, made, place.saturating_sub(1));
        }
    }

    // Empties the made rows whose last use is the step that made the last of them.
    pub(crate) fn forget(&self, alloc: Global, made: &mut Vec<Row>)
        ensures { AreForgotten self.now.count self.now.taken.now made.old.items made.new.items }
    {
        let number = made.len();
        if number == 0 || number > self.taken.len() {
            return;
        }
        self.forget_at(alloc, made, number - 1);
        self.forget_named(alloc, made, self.taken[number - 1].terms.as_slice());
    }
}
