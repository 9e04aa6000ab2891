// How many deeds are done, for proofs.

ghost use Rattle.std.specs.Prelude.{◌≡◌, ◌+◌, ℕ};
ghost use Rattle.std.specs.Borrow.{ftrue};

use std::marker::{Model, PhantomData};

/// How many deeds of a processor are done: a number that only proofs read, for a [`Deeds`] that
/// needs it. It takes no bytes, and its calls do nothing when they run.
///
/// [`Deeds`]: crate::deeds::Deeds
#[derive(Drop)]
pub struct Progress {
    of: PhantomData<u8>,
    pub ghost done: { ℕ },
}

impl Model for Progress {
    ghost also_owns = { λ _. ftrue };
}

// It owns nothing.
unsafe impl Send for Progress {}

impl Progress {
    /// Nothing is done.
    pub fn new() -> Progress
        ensures { result.done ≡ 0 }
    {
        Progress { of: PhantomData }
    }

    /// One more is done.
    pub fn further(&self) -> Progress
        ensures { result.done ≡ self.now.done + 1 }
    {
        Progress { of: PhantomData }
    }
}
