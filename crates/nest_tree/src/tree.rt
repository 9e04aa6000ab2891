// The tree of a program.

ghost use Rattle.std.specs.Prelude.{◌≡◌};

use crate::form::Affine;
use crate::listed::Listed;

/// An access to a variable (a number from 1): to a scalar, or to an array's element.
#[derive(Drop)]
pub struct Access {
    pub variable: u32,
    /// From the first dimension; none for a scalar.
    pub subscripts: Listed<Affine>,
}

/// An expression of whole numbers of 64 bits.
#[derive(Drop)]
pub enum Expr {
    /// A number as written or computed.
    Number(i64),
    /// The value of the DO variable of a loop round the place, by the loop's number.
    LoopValue(u32),
    /// The value of a named constant, by its number.
    Param(u32),
    /// What a scalar or an element holds.
    Load(Access),
    Neg(Box<Expr>),
    Add(Box<Expr>, Box<Expr>),
    Sub(Box<Expr>, Box<Expr>),
    Mul(Box<Expr>, Box<Expr>),
    /// A quotient by a number other than 0.
    Div(Box<Expr>, i64),
    /// The least of the arguments, of which there is one at least.
    Min(Vec<Expr>),
    /// The greatest of the arguments, of which there is one at least.
    Max(Vec<Expr>),
}

/// An item of a PRINT.
#[derive(Drop)]
pub enum PrintItem {
    Value(Expr),
    /// A whole array, by its variable: each element in storage order.
    Whole(u32),
    /// The characters of a character constant.
    Text(Vec<u8>),
}

/// A DO loop: `DO .. variable = m1, m2, step`.
#[derive(Drop)]
#[cycle(nest)]
pub struct Nest {
    /// The loop's number, from 1 in text order.
    pub number: u32,
    pub m1: Affine,
    pub m2: Affine,
    /// Not 0.
    pub step: i64,
    pub items: Vec<Item>,
    /// The line of its DO statement, from 1.
    pub line: u32,
}

/// How the two sides of a logical IF's comparison are compared: `.LT.`, `.LE.`, `.EQ.`, `.GE.`, `.GT.`.
#[derive(Clone, Copy, Debug, PartialEq, Eq)]
pub enum Compare {
    Lt,
    Le,
    Eq,
    Ge,
    Gt,
}

impl Compare {
    ghost use Rattle.nest_tree.specs.Guards.{compares};

    /// Whether the two sides compare so.
    pub fn holds(self, left: i64, right: i64) -> bool
        ensures { result ≡ compares self left right }
    {
        match self {
            Compare::Lt => left < right,
            Compare::Le => left <= right,
            Compare::Eq => left == right,
            Compare::Ge => left >= right,
            Compare::Gt => left > right,
        }
    }
}

/// The comparison of a logical IF, `left .op. right`.
#[derive(Drop)]
pub struct Guard {
    pub left: Affine,
    pub op: Compare,
    pub right: Affine,
}

impl Guard {
    ghost use Rattle.std.specs.Prelude.{IsTrue, length, Some};
    ghost use Rattle.nest_tree.specs.Form.{form_value, is_given, is_small};
    ghost use Rattle.nest_tree.specs.Guards.{holds};

    /// Whether the comparison holds where the loops and the named constants, by number from 1,
    /// have these values. Each side's value is within plus or minus 2147483647.
    pub fn holds(&self, loops: &[i64], params: &[i64]) -> bool
        requires left_given { IsTrue (is_given self.now.left (length loops.now)
            (length params.now)) }
        requires right_given { IsTrue (is_given self.now.right (length loops.now)
            (length params.now)) }
        requires left_small { IsTrue (is_small (form_value self.now.left loops.now params.now)) }
        requires right_small { IsTrue (is_small (form_value self.now.right loops.now params.now)) }
        ensures { result ≡ holds (Some self.now) loops.now params.now }
    {
        self.op.holds(
            self.left.value(loops, params),
            self.right.value(loops, params),
        )
    }
}

/// A statement that is executed, or a loop with its body. The last number is the line, from 1.
#[derive(Drop)]
#[cycle(nest)]
pub enum Item {
    Loop(Nest),
    /// An assignment. With a comparison it is executed only where that holds.
    Assign(Access, Expr, Option<Guard>, u32),
    Print(Vec<PrintItem>, u32),
    Continue(u32),
}

/// A named constant (of a PARAMETER statement), with its value.
#[derive(Drop)]
pub struct Parameter {
    pub name: Vec<u8>,
    pub value: i64,
}

/// How an array's elements along its distributed dimension are dealt to the processors.
#[derive(Clone, Copy, Debug, PartialEq, Eq)]
pub enum Spread {
    Block,
    Cyclic,
}

/// A scalar or an array.
#[derive(Drop)]
pub struct Variable {
    pub name: Vec<u8>,
    /// The lower and the upper bound of each dimension; none for a scalar.
    pub bounds: Vec<(i64, i64)>,
    /// The distributed dimension, from 1; 0 for a scalar.
    pub axis: u32,
    /// `Block` for a scalar.
    pub spread: Spread,
}
