// What is told of a plan, with what its text is made of.

ghost use Rattle.std.specs.Prelude.{◌≡◌, ◌≤◌, IfErr, None, length};
ghost use Rattle.f77_lines.specs.Listing.{first_line_fault};
ghost use Rattle.f77_lines.specs.declared.refusal.LineRefusal.TheVariants.{NoMemory};

use crate::last::Setting;
use crate::names::{LoopName, loop_names};
use comm_system::phase::Phase;
use comm_system::phases::phases;
use f77_lines::{LineRefusal, MOST_BYTES, statements};
use nest_tree::{Item, Program};
use reason_witness::account::Account;
use reason_witness::meeting::{Meeting, Touch};
use std::alloc::{AllocError, Global};

/// How something is told.
#[derive(Clone, Copy, Debug)]
pub enum Form {
    /// In words, line by line.
    Words,
    /// As one JSON object.
    Json,
}

/// What is told of the plan of the program of the source that these bytes begin with, as a text. The
/// error is that memory ran out.
pub fn write_account(
    alloc: Global,
    source: &[u8],
    program: &Program,
    account: &Account,
    form: Form,
) -> Result<Vec<u8>, LineRefusal>
    requires short { length source.now ≤ MOST_BYTES }
    requires faultless { first_line_fault source.now ≡ None }
    ensures { IfErr result (λ refusal. refusal ≡ NoMemory) }
{
    let (lines, _rest) = statements(alloc, source)?;
    let loops = loop_names(alloc, &lines)?;
    let phases = phases(alloc, program, &account.plan.cut)?;
    let setting = Setting {
        program,
        plan: &account.plan,
        phases: &phases,
    };
    let stores = setting.last_stores(alloc, account)?;
    let lines = phase_lines(alloc, &phases)?;
    let page = Page {
        program,
        account,
        loops: &loops,
        lines: &lines,
        stores: &stores,
    };
    match form {
        Form::Words => Ok(page.text(alloc)?),
        Form::Json => Ok(page.json(alloc)?),
    }
}

/// An account of a program's plan, with the loops of the source and the line of each static phase.
#[derive(Drop)]
pub(crate) struct Page<'p> {
    pub(crate) program: &'p Program,
    pub(crate) account: &'p Account,
    pub(crate) loops: &'p [LoopName],
    pub(crate) lines: &'p [u32],
    /// Of each reason the last store in front of the load, where that is to be told of.
    pub(crate) stores: &'p [Option<Touch>],
}

impl Page<'_> {
    /// The loop with this number, from 1.
    pub(crate) fn loop_at(&self, number: u32) -> Option<&LoopName> {
        self.loops.get((number as usize).checked_sub(1)?)
    }

    /// Whether a loop's DO stands in this line: an obligation whose first line it is speaks of a loop
    /// without a trip.
    pub(crate) fn is_loop_line(&self, line: u32) -> bool {
        self.loops.iter().any(|it| it.line == line)
    }

    /// The line of a static phase by its number, from 1; 0 where there is none.
    pub(crate) fn line_of(&self, phase: u32) -> u32 {
        let place = (phase as usize).saturating_sub(1);
        self.lines.get(place).copied().unwrap_or(0)
    }

    /// The first access of a meeting, of the reason at a place; or the last store in front of the
    /// load, where the same processor does it.
    pub(crate) fn first_of<'t>(&'t self, place: usize, meeting: &'t Meeting) -> &'t Touch {
        match self.stores.get(place) {
            Some(Some(last)) if last.processor == meeting.first.processor => last,
            _ => &meeting.first,
        }
    }

    /// The last store in front of the load, where a third processor does it.
    pub(crate) fn last_of(&self, place: usize, meeting: &Meeting) -> Option<&Touch> {
        match self.stores.get(place) {
            Some(Some(last)) if last.processor != meeting.first.processor => Some(last),
            _ => None,
        }
    }

    /// The name of a named constant by its number, from 1.
    pub(crate) fn constant_name(&self, constant: u32) -> &[u8] {
        let place = (constant as usize).saturating_sub(1);
        match self.program.params.get(place) {
            Some(constant) => constant.name.as_slice(),
            None => b"?",
        }
    }

    /// The name of a variable by its number, from 1.
    pub(crate) fn name_of(&self, variable: u32) -> &[u8] {
        let place = (variable as usize).saturating_sub(1);
        match self.program.variables.get(place) {
            Some(variable) => variable.name.as_slice(),
            None => b"?",
        }
    }
}

// The line of each static phase, from 1. An error says that memory ran out.
fn phase_lines(alloc: Global, phases: &[Phase]) -> Result<Vec<u32>, AllocError> {
    let mut lines = Vec::new(alloc);
    for phase in phases {
        lines.push(match phase.text.item {
            Item::Loop(nest) => nest.line,
            Item::Assign(_, _, _, line) | Item::Print(_, line) | Item::Continue(line) => *line,
        })?;
    }
    Ok(lines)
}
