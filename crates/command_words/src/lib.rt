//! The words of the tool's command line, read with `clap` by its stated rule.
//!
//! `read_words` gives the request that the words stand for: which command, how many processors,
//! by which plan, run by what, and the settings as they are written. Words that ask for help or for
//! the version are told apart from words that are no command.
//!
//! - [`commands`] and [`read`]: the parts of commands and of their reading that other programs of the
//!   repository share.
#![tactic(auto)]

pub mod commands;
pub mod laws;
pub mod read;
mod request;
mod settings;
mod sweep;

pub use crate::read::read_words;
pub use crate::request::{Bench, Engine, PlanChoice, Refused, Request, Run};
pub use crate::settings::{SettingFault, read_settings};
pub use crate::sweep::Sweep;
