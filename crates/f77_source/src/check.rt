// The first fault of statements, and what is known behind them.

ghost use Rattle.std.specs.Prelude.{◌≡◌, ◌<◌, None, map, IfOk, IfErr, OnOk};
ghost use Rattle.f77_program.specs.Refusals.{fault_of};
ghost use Rattle.f77_program.specs.Wholes.{given_of};
ghost use Rattle.f77_scene.specs.Reading as reading;
ghost use Rattle.f77_scene.specs.Scene.{first_scene};
ghost use Rattle.f77_source.specs.Answers.{Refuses};
ghost use Rattle.f77_source.specs.Sources.{reading_view, source_of};
ghost use Rattle.f77_source.specs.Limits.{KeepsLimits};

use crate::source::Source;
use f77_forms::TextFault;
use f77_program::{Fault, Known, Refusal, Whole, fault_in, pass_statement};
use std::alloc::Global;

/// What is known behind the last statement, or the first fault.
pub fn check(alloc: Global, whole: &Whole, sources: &[Source]) -> Result<Known, Refusal>
    ensures known { IfOk result (λ known. known ≡ reading.scene_from (given_of whole.now)
        first_scene (map source_of sources.now)) }
    ensures within { IfOk result KeepsLimits }
    ensures faultless { OnOk result (reading.fault_from (given_of whole.now) first_scene
        (map source_of sources.now) ≡ None) }
    ensures refused { IfErr result (Refuses (reading.fault_from (given_of whole.now) first_scene
        (map source_of sources.now))) }
{
    let mut known = Known::new(alloc);
    for (place, source) in sources.iter().enumerate() {
        pass(alloc, whole, &mut known, sources.len() - place - 1, source)?;
    }
    Ok(known)
}

/// The fault of a statement with so many statements behind it; where it has none, what it says is
/// known behind it.
fn pass(
    alloc: Global,
    whole: &Whole,
    known: &mut Known,
    behind: usize,
    source: &Source,
) -> Result<(), Refusal>
    requires { KeepsLimits known.old }
    ensures known { OnOk result (known.new ≡ reading.scene_with (given_of whole.now) known.old
        source.now.label (reading_view source.now.reading)) }
    ensures within { OnOk result (KeepsLimits known.new) }
    ensures faultless { OnOk result (reading.fault_with (given_of whole.now) known.old behind
        source.now.label (reading_view source.now.reading) ≡ None) }
    ensures refused { IfErr result (Refuses (reading.at_line source.now.line
        (reading.fault_with (given_of whole.now) known.old behind source.now.label
        (reading_view source.now.reading)))) }
{
    let statement = match &source.reading {
        Ok(statement) => statement,
        Err(fault) => return Err(Refusal::Statement(fault_of_text(*fault), source.line)),
    };
    match fault_in(alloc, whole, known, behind, source.label, statement)? {
        Some(fault) => Err(Refusal::Statement(fault, source.line)),
        None => {
            pass_statement(alloc, known, source.label, statement)?;
            Ok(())
        }
    }
}

/// The fault of a statement whose text has no form.
fn fault_of_text(fault: TextFault) -> Fault
    ensures { fault_of result ≡ reading.fault_of_text fault }
{
    match fault {
        TextFault::NotInProfile => Fault::NotInProfile,
        TextFault::LiteralTooLarge => Fault::LiteralTooLarge,
        TextFault::NoForm | TextFault::NoMemory => Fault::Syntax,
    }
}
