//! Systems of linear inequalities over whole numbers, and certificates that refute them.
//!
//! A system has rows `coefs . x <= bound`. A certificate is a list of steps. A step adds
//! multiples of rows that stand before it, divides by a common divisor of the coefficients and
//! rounds the bound down (Farkas' lemma, with the rounding of Gomory and Chvatal). Each step
//! makes a row that holds at every whole solution of the system. So where the last row reads
//! `0 <= bound` with a negative bound, the system has no whole solution.
//!
//! A certificate may come from anywhere: [`check_cert`] takes it exactly where it is good, and
//! else names the first fault; [`check_cert_counted`] counts its work too.
//! [`good_certificates_exclude_whole_solutions`] is the law that they rest on.
//!
//! - [`system`] and [`certificate`]: what is checked, and why a certificate is refused.
//! - [`narrow`] and [`narrow_system`]: what keeps numbers at most 2 ^ 126 in size.
//! - [`counting`]: units of work, counted.
#![tactic(auto)]

pub mod certificate;
mod check;
mod law;
pub mod narrow;
pub mod narrow_system;
pub mod system;
mod uses;

pub use cert_arithmetic::{Steps, counting};
pub use certificate::{CertRefusal, Certificate, Step, StepList, Terms};
pub use check::{check_cert, check_cert_counted};
pub use law::good_certificates_exclude_whole_solutions;
pub use narrow_system::NarrowSystem;
pub use system::{Coefs, Row, Rows, System};
