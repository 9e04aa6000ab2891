//! The program as a tree: nests of DO loops with assignments, PRINTs and CONTINUEs, and the
//! affine forms in their subscripts and bounds.
//!
//! A tree is made by the reader and read by all that stands above it. Its types say what it
//! holds; `specs/` has the same tree as plain data, without where a node lies in memory, and
//! every definition of the repository speaks of that. `Program::layout` tells which cell of
//! memory a variable's element has.
#![tactic(auto)]

pub mod arithmetic;
pub mod form;
pub mod items;
pub mod layout;
pub mod limits;
pub mod listed;
pub mod program;
pub mod tree;

pub use form::{Affine, Pairs, constant_sum, is_small, product, rises};
pub use layout::Layout;
pub use limits::Limit;
pub use listed::Listed;
pub use program::{Draft, Program};
pub use tree::{Access, Compare, Expr, Guard, Item, Nest, Parameter, PrintItem, Spread, Variable};
