// Whom a wait is for, in words.

use crate::page::Page;
use crate::text::{push_part, push_words};
use nest_tree::Affine;
use owner_partition::{Anchor, Dist};
use std::alloc::AllocError;
use sync_plan::Kind;

impl Page<'_> {
    /// Whom a wait of this kind is for.
    pub(crate) fn push_awaited(&self, text: &mut Vec<u8>, kind: &Kind) -> Result<(), AllocError> {
        match kind.anchor() {
            Some(anchor) => self.push_owner(text, anchor),
            None => push_words(text, kind.whom().as_bytes()),
        }
    }

    // The owner that an anchor names: a processor, where it names no loop.
    fn push_owner(&self, text: &mut Vec<u8>, anchor: &Anchor) -> Result<(), AllocError> {
        if anchor.form.loops().is_empty() {
            if let Some(owner) = self.owner_of(anchor) {
                return push_part(text, b"processor ", owner);
            }
        }
        push_words(text, b"the owner of place ")?;
        self.push_form(text, &anchor.form)?;
        match anchor.dist {
            Dist::Block(length) => push_part(text, b" in blocks of ", i128::from(length)),
            Dist::Cyclic => push_words(text, b", dealt in turn"),
        }
    }

    // The owner that an anchor names where no loop counts.
    fn owner_of(&self, anchor: &Anchor) -> Option<i128> {
        let mut place = i128::from(anchor.form.constant());
        for (number, coefficient) in anchor.form.params() {
            let param = self.program.params.get((*number as usize).checked_sub(1)?)?;
            let product = i128::from(*coefficient).checked_mul(i128::from(param.value))?;
            place = place.checked_add(product)?;
        }
        match anchor.dist {
            Dist::Block(length) => place.checked_div_euclid(i128::from(length)),
            Dist::Cyclic => place.checked_rem_euclid(i128::from(self.account.plan.workers)),
        }
    }

    // A form: loops and named constants with their coefficients, and what is added to them.
    fn push_form(&self, text: &mut Vec<u8>, form: &Affine) -> Result<(), AllocError> {
        let mut is_first = true;
        for (number, coefficient) in form.loops() {
            push_coefficient(text, *coefficient, is_first)?;
            match self.loop_at(*number) {
                Some(it) => push_words(text, it.variable.as_slice())?,
                None => push_part(text, b"loop ", i128::from(*number))?,
            }
            is_first = false;
        }
        for (number, coefficient) in form.params() {
            push_coefficient(text, *coefficient, is_first)?;
            push_words(text, self.constant_name(*number))?;
            is_first = false;
        }
        let constant = i128::from(form.constant());
        if is_first {
            push_part(text, b"", constant)
        } else if constant > 0 {
            push_part(text, b" + ", constant)
        } else if constant < 0 {
            push_part(text, b" - ", constant.saturating_neg())
        } else {
            Ok(())
        }
    }
}

// A coefficient in front of a name: its sign, and its size where that isn't 1.
fn push_coefficient(
    text: &mut Vec<u8>,
    coefficient: i64,
    is_first: bool,
) -> Result<(), AllocError> {
    let size = i128::from(coefficient).saturating_abs();
    push_words(
        text,
        match (coefficient < 0, is_first) {
            (true, true) => b"-".as_slice(),
            (true, false) => b" - ",
            (false, true) => b"",
            (false, false) => b" + ",
        },
    )?;
    if size == 1 {
        Ok(())
    } else {
        push_part(text, b"", size)?;
        push_words(text, b"*")
    }
}
