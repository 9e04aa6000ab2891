// How the rows are made.

ghost use Rattle.std.specs.Prelude.{◌≡◌, ◌+◌, ◌++◌, [], ◌∷◌, IfOk, OnOk, length};

use farkas_cert::System;
use std::alloc::AllocError;

/// How a row is made: of one row or two, by their numbers, with multipliers, and then divided.
#[derive(Clone, Copy)]
pub struct Derivation {
    pub divisor: i128,
    pub first: (u64, i128),
    pub second: Option<(u64, i128)>,
}

/// Adds a derivation, and gives the number of its row: the system's rows come first. An error says that memory ran out.
pub fn derive(
    system: &System,
    log: &mut Vec<Derivation>,
    derivation: Derivation,
) -> Result<u64, AllocError>
    ensures log { OnOk result (log.new.items ≡ log.old.items ++ derivation ∷ []) }
    ensures number { IfOk result (λ number. number ≡ length system.now.rows + length
        log.new.items) }
{
    log.push(derivation)?;
    Ok((system.rows().len() + log.len()) as u64)
}
