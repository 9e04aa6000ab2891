//! Why a plan waits, and why its loops aren't dealt out, each by two iterations that meet: a witness
//! of the obligation that stands in the way.
//!
//! - [`account`]: what is told of a plan, made, given or refused for an obligation: its reasons.
//! - [`found`]: an obligation that is looked for, and what is found of it.
//! - [`meeting`]: what a whole solution says: two accesses that meet, or a loop without a trip.
//! - `sought`, `asked`: of what reasons are looked for.
//! - `candidates`: what is weaker than the wait in front of a phase.
//! - `known`: whole solutions of earlier reasons, which may solve a system too.
//! - `weaker`: the obligations of the plan with a weaker wait in front of a phase.
#![tactic(auto)]

pub mod account;
mod asked;
mod candidates;
pub mod found;
mod known;
pub mod meeting;
mod sought;
mod weaker;
