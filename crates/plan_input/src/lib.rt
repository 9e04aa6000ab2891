//! A source with the text of a plan behind its END line, as programs read it: the program and the
//! plan, or why there are none, with the line that tells it and the status of the process.
#![tactic(auto)]

mod error;
mod reading;
mod status;

pub use error::InputError;
pub use reading::{read_fitting, read_inside, read_source};
pub use status::{Status, status_of_write};
