// The forms of statements. Each prints back to its text (`specs/Text.antt`), so it keeps how a
// thing is written where that may differ: parentheses, leading signs, leading zeros.

use crate::number::Number;

/// A leading sign.
#[derive(Clone, Copy, Debug, PartialEq, Eq)]
pub enum Sign {
    Plus,
    Minus,
}

/// An operator between two operands.
#[derive(Clone, Copy, Debug, PartialEq, Eq)]
pub enum Operator {
    Add,
    Subtract,
    Multiply,
    Divide,
}

/// An expression as it is written. Operators of one rank associate to the left, `*` and `/` bind
/// tighter than `+` and `-`, and a leading sign applies to the first term alone. A name has 1 to
/// 6 capitals and digits and begins with a capital.
#[derive(Drop)]
pub enum Expression {
    Number(Number),
    /// A name alone.
    Name(Vec<u8>),
    /// A name and, in parentheses, one expression at least: an element of an array, MIN or MAX.
    Call(Vec<u8>, Vec<Expression>),
    /// An expression in parentheses.
    Parenthesized(Box<Expression>),
    /// A term behind a leading sign.
    Signed(Sign, Box<Expression>),
    Binary(Operator, Box<Expression>, Box<Expression>),
}

/// The bounds of a dimension: `upper` or `lower:upper`.
#[derive(Drop)]
pub struct Bound {
    pub lower: Option<Expression>,
    pub upper: Expression,
}

/// A name of an INTEGER or DIMENSION statement, and the bounds behind it in parentheses; none
/// where it has no parentheses.
#[derive(Drop)]
pub struct Declarator {
    pub name: Vec<u8>,
    pub bounds: Vec<Bound>,
}

/// `NAME = constant` of a PARAMETER statement.
#[derive(Drop)]
pub struct Definition {
    pub name: Vec<u8>,
    pub value: Expression,
}

/// What an assignment stores to: a name, and the arguments behind it in parentheses; none where
/// it has no parentheses.
#[derive(Drop)]
pub struct Target {
    pub name: Vec<u8>,
    pub arguments: Vec<Expression>,
}

/// `target = value`.
#[derive(Drop)]
pub struct Assignment {
    pub target: Target,
    pub value: Expression,
}

/// The operator of a comparison: `.LT.`, `.LE.`, `.EQ.`, `.GE.` or `.GT.`.
#[derive(Clone, Copy, Debug, PartialEq, Eq)]
pub enum Compare {
    Lt,
    Le,
    Eq,
    Ge,
    Gt,
}

/// `left .op. right`.
#[derive(Drop)]
pub struct Comparison {
    pub left: Expression,
    pub compare: Compare,
    pub right: Expression,
}

/// `DO label variable = first, last` or `DO label variable = first, last, step`.
#[derive(Drop)]
pub struct DoStatement {
    /// 1 to 99999.
    pub label: Number,
    /// Whether a comma stands behind the label.
    pub comma: bool,
    pub variable: Vec<u8>,
    pub first: Expression,
    pub last: Expression,
    pub step: Option<Expression>,
}

/// An item of a PRINT.
#[derive(Drop)]
pub enum Printed {
    Value(Expression),
    /// The characters of a character constant, of which there is one at least. A doubled
    /// apostrophe is one of them.
    Text(Vec<u8>),
}

/// A statement.
#[derive(Drop)]
pub enum Statement {
    Program(Vec<u8>),
    /// One declarator at least.
    Integer(Vec<Declarator>),
    /// One declarator at least, each with bounds.
    Dimension(Vec<Declarator>),
    /// One definition at least.
    Parameter(Vec<Definition>),
    Do(DoStatement),
    Assign(Assignment),
    /// `IF (left .op. right) target = value`.
    If(Comparison, Assignment),
    Print(Vec<Printed>),
    Continue,
    Stop,
    End,
}
