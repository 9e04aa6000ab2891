// Loops that are open.

ghost use Rattle.std.specs.Prelude.{◌≤◌};

/// A loop whose terminal statement is still to come.
#[derive(Drop)]
pub struct Opened {
    pub variable: Vec<u8>,
    /// The label of its terminal statement.
    pub label: u64,
    /// The loop's number, from 1.
    pub number: u32,
    pub ghost counted: { 1 ≤ number },
}
