// What a step of the machine answers.

/// What a step did.
#[derive(Clone, Copy, Debug, PartialEq, Eq)]
pub enum StepAnswer {
    /// The processor's next act is done.
    Stepped,
    /// The processor awaits the counter of processor `on` to be at least `wanted`; it is `seen`,
    /// which is less. Nothing has changed.
    Blocked { on: u32, wanted: u64, seen: u64 },
    /// The processor has done all its acts.
    Ended,
}
