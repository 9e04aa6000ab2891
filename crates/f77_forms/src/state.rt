// What is known of a text in front of one of its characters.

use crate::form::{Bound, Declarator, Expression, Operator, Printed, Sign};

/// What waits in front of an operand.
#[derive(Drop)]
pub enum Pending {
    Nothing,
    /// A leading sign.
    Lead(Sign),
    /// A left operand and its operator.
    Left(Expression, Operator),
}

/// A piece of a statement.
#[derive(Drop)]
pub enum Item {
    /// An expression or a constant.
    Printed(Printed),
    /// A name with bounds behind it.
    Declared(Declarator),
}

/// A piece behind its separator.
#[derive(Drop)]
pub struct Piece {
    pub separator: u8,
    pub item: Item,
}

/// Where an expression stands, with what was read there.
#[derive(Drop)]
pub enum Opener {
    /// Among the pieces of a statement, behind this separator; whether a name's parentheses hold
    /// bounds.
    Pieces(bool, Vec<Piece>, u8),
    /// In parentheses.
    Group,
    /// Among the arguments of this name.
    Arguments(Vec<u8>, Vec<Expression>),
    /// Among the bounds of this name, behind a lower bound and its colon or not.
    Bounds(Vec<u8>, Vec<Bound>, Option<Expression>),
}

/// Where an expression stands, and what waits there for a term and for a factor.
#[derive(Drop)]
pub struct Level {
    pub opener: Opener,
    pub sum: Pending,
    pub product: Pending,
}

/// What was read behind the last operator or separator.
#[derive(Drop)]
pub enum Operand {
    Missing,
    /// A part of a word at least.
    Word(Vec<u8>),
    Whole(Expression),
    Declarator(Declarator),
    /// The characters of a constant so far.
    Quoted(Vec<u8>),
    /// The same, behind an apostrophe that ends the constant or is the first of two.
    Closed(Vec<u8>),
}
