// Rows that a level may keep, and where they come from.

use crate::derivation::Derivation;
use farkas_cert::Row;

/// Where a row comes from: it has a number already, or it is to be derived.
#[derive(Clone, Copy)]
pub enum Origin {
    Numbered(u64),
    Made(Derivation),
}

/// A row that the next level keeps if no other with equal coefficients has a lower bound.
#[derive(Drop)]
pub struct Candidate {
    pub row: Row,
    pub origin: Origin,
}
