//! A value that stands in proofs alone.
#![tactic(auto)]

ghost use Rattle.std.specs.Prelude.{◌≡◌};
ghost use Rattle.std.specs.Borrow.{ftrue};

use std::marker::{Model, PhantomData};

/// A value that was noted, which clauses name as `value`. It has no bytes, and making it does
/// nothing.
#[derive(Drop)]
pub struct Note<T> {
    of: PhantomData<T>,
    pub ghost value: { T },
}

impl<T> Model for Note<T> {
    ghost also_owns = { λ _. ftrue };
}

impl<T> Note<T> {
    /// Notes what stands behind this reference.
    pub fn of(_value: &T) -> Note<T>
        ensures { result.value ≡ _value.now }
    {
        Note { of: PhantomData }
    }
}
