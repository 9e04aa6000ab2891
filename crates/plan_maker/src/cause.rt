// Why a system is kept.

/// Why a system is kept: the answer of elimination, or that none is asked for.
#[derive(Clone, Copy, Debug, PartialEq, Eq)]
pub enum Word {
    /// It has a rational solution.
    Open,
    /// A number gets too large.
    Wide,
    /// A level has too many rows.
    Many,
    /// Levels are formed of too many pairs of rows.
    Work,
    /// Others took all the work that a plan may take, and it isn't decided.
    Spent,
}

/// A system that is kept: what it speaks of, and the answer.
#[derive(Clone, Copy, Debug, PartialEq, Eq)]
pub struct Cause {
    /// The lines of the two accesses' statements, from 1; of a loop without a trip those of its DO and
    /// of the store inside it.
    pub lines: (u32, u32),
    /// The variable that both access, or that is stored, from 1.
    pub variable: u32,
    /// The common loop, from 1, that is at an earlier trip for the first access; 0 where all
    /// common loops are equal, for two trips of a loop, and for a loop without
    /// a trip.
    pub level: u32,
    /// The piece, from 1; 0 for two trips of a loop, and for a loop without a trip.
    pub piece: u32,
    pub word: Word,
}
