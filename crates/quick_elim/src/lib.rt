//! A quick look for what settles a system of linear inequalities: a certificate that it has no
//! whole solution, or a whole solution.
//!
//! [`settle`] removes the variables of a system one by one: first those that an equality gives,
//! then the one whose removal adds fewest rows. Where no row is left it takes values back, from the
//! last variable on. It works with numbers of 64 bits within a [`Budget`], and gives up where one of
//! them doesn't do. What it finds is checked before it is given, so nothing rests on the search.
//!
//! - `answer`: the answers, and the budget.
//! - `settling`: the search with the checks behind it.
//! - `point`: values of the variables, and the check of them.
//! - `work`, with `row`, `flat` and `sum`: the rows that stand, and how variables are removed from them.
//! - `equality`: equalities, and whole changes of variables.
//! - `values`: values taken back.
//! - `certificate`: the certificate that ends in a row that was made.
#![tactic(auto)]

mod answer;
mod certificate;
mod early_end;
mod equality;
mod flat;
mod point;
mod row;
mod settling;
mod sum;
mod values;
mod work;

pub use answer::{Budget, NoMemory, Settled};
pub use point::Point;
pub use settling::settle;
