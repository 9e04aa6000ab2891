// An obligation of a plan.

use farkas_cert::System;

/// A system that must have no whole solution. Its certificate in a plan has the same number.
#[derive(Drop)]
pub struct Obligation {
    /// The number, from 1.
    pub number: u64,
    pub system: System,
    /// The lines of the two accesses' statements, from 1; of a loop without a trip those of its DO and
    /// of the store inside it.
    pub lines: (u32, u32),
    /// The variable that both access, or that is stored, from 1.
    pub variable: u32,
    /// The common loop, from 1, that is at an earlier trip for the first access; 0 where all
    /// common loops are equal, for two trips of a Doall loop, and for a loop without a trip.
    pub level: u32,
    /// The piece, from 1; 0 for two trips of a Doall loop, and for a loop without a trip.
    pub piece: u32,
    /// Of the first owner's number less the second's: the greatest difference below those that the
    /// plan's waits order, and the least above; 0 and 0 where the piece is 0.
    pub range: (i32, i32),
}

/// What an obligation speaks of: all of it but the system.
#[derive(Clone, Copy)]
pub struct Topic {
    pub number: u64,
    pub lines: (u32, u32),
    pub variable: u32,
    pub level: u32,
    pub piece: u32,
    pub range: (i32, i32),
}

impl Topic {
    ghost use Rattle.std.specs.Prelude.{◌≡◌};
    ghost use Rattle.comm_system.specs.SystemViews.{about};

    /// The obligation with this system.
    pub fn obligation(self, system: System) -> Obligation
        ensures { result ≡ about self system }
    {
        Obligation {
            number: self.number,
            system,
            lines: self.lines,
            variable: self.variable,
            level: self.level,
            piece: self.piece,
            range: self.range,
        }
    }
}
