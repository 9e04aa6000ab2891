// The program of a source.

ghost use Rattle.std.specs.Prelude.{◌≡◌, ℕ, List, map, IfOk, IfErr, IsTrue, OnOk};
ghost use Rattle.std.specs.Option.{option_map};
ghost use Rattle.nest_tree.specs.View.{tree_of_draft};
ghost use Rattle.nest_tree.specs.WellFormed.{IsWellFormed};
ghost use Rattle.f77_lines.specs.Listing.{Lists, entry_of};
ghost use Rattle.f77_program.specs.Pieces.{names_view};
ghost use Rattle.f77_scene.specs.Fault as scene;
ghost use Rattle.f77_scene.specs.Reading as reading;
ghost use Rattle.f77_scene.specs.Scene.{Given, first_scene, constant_names};
ghost use Rattle.f77_scene.specs.Trees.{first_body};
ghost use Rattle.f77_source.specs.Answers as answers;
ghost use Rattle.f77_source.specs.Sources.{are_values, setting_of, source_of};
ghost use Rattle.f77_source.specs.Limits.{KeepsLimits};
ghost use Rattle.f77_source.specs.Stages.{ArePassed};

use crate::check::check;
use crate::placing::from_last;
use crate::source::{Contents, Setting, Source, contents_of, whole_of};
use crate::variable::{declarations, variables_of};
use crate::walk::items_of;
use f77_lines::Line;
use f77_program::{Known, Refusal};
use nest_tree::Draft;
use std::alloc::{AllocError, Global};

/// The program of statements and directives, as [`f77_lines::statements`] lists them, where each
/// named constant that a setting names has the setting's value, the last one's of several.
///
/// Otherwise the first statement with a fault, in it the first fault; where there is none, the
/// first setting that names no PARAMETER. Want of memory may come in place of any answer.
pub fn read_program(alloc: Global, lines: &[Line], settings: &[Setting]) -> Result<Draft, Refusal>
    // What is read is the program of what is listed, which has no fault.
    ensures program { IfOk result (λ p. answers.IsProgram (map entry_of lines.now)
        (map setting_of settings.now) (tree_of_draft p)) }
    // A refusal names its first fault, or is want of memory.
    ensures refused { IfErr result (answers.Refuses (reading.first_fault_in (map entry_of lines.now)
        (map setting_of settings.now))) }
    // The same of the bytes that list it: what is read is their program.
    ensures reads { (bytes : List ℕ) (rest : ℕ) → Lists bytes (map entry_of lines.now) rest
        → IfOk result (λ p. reading.Reads bytes (map setting_of settings.now) (tree_of_draft p)) }
    // And that program is well formed, as `Draft::limited` asks.
    ensures formed { (bytes : List ℕ) (rest : ℕ) → Lists bytes (map entry_of lines.now) rest
        → IfOk result (λ p. IsWellFormed (tree_of_draft p)) }
    ensures first_fault { (bytes : List ℕ) (rest : ℕ) → Lists bytes (map entry_of lines.now) rest
        → IfErr result (answers.Refuses (reading.first_fault bytes (map setting_of settings.now))) }
{
    read(alloc, lines, settings)
}

fn read(alloc: Global, lines: &[Line], settings: &[Setting]) -> Result<Draft, Refusal>
    ensures program { IfOk result (λ p. answers.IsProgram (map entry_of lines.now)
        (map setting_of settings.now) (tree_of_draft p)) }
    ensures refused { IfErr result (answers.Refuses (reading.first_fault_in (map entry_of lines.now)
        (map setting_of settings.now))) }
    ensures values { OnOk result (IsTrue (are_values (map setting_of settings.now))) }
{
    let contents = contents_of(alloc, lines)?;
    let Contents {
        sources,
        integers,
        directives,
    } = contents;
    let whole = whole_of(alloc, integers, settings)?;
    let mut known = check(alloc, &whole, &sources)?;
    if let Some(index) = bad_setting(&known, settings) {
        return Err(Refusal::BadSetting(index));
    }
    let program = assemble(alloc, &mut known, &directives, &sources)?;
    Ok(program)
}

/// The first of settings, by its number from 1, that names no named constant.
fn bad_setting(known: &Known, settings: &[Setting]) -> Option<usize>
    ensures { option_map scene.bad_setting result ≡ reading.bad_setting_from 1
        (constant_names known.now) (map setting_of settings.now) }
{
    for (place, setting) in settings.iter().enumerate() {
        if !known.is_constant(setting.name.as_slice()) {
            return Some(place + 1);
        }
    }
    None
}

/// The program of statements without fault, by the texts of the directives and by what is known
/// behind the last statement.
fn assemble(
    alloc: Global,
    known: &mut Known,
    directives: &[&[u8]],
    sources: &[Source],
) -> Result<Draft, AllocError>
    requires passed { (given : Given) × ArePassed given (map source_of sources.now) known.old }
    requires within { KeepsLimits known.old }
    ensures { (given : Given) → ArePassed given (map source_of sources.now) known.old
        → IfOk result (λ p. tree_of_draft p
        ≡ reading.tree_from (names_view directives.now) known.old
        (reading.body_from (reading.variables_of known.old) given first_scene
        (map source_of sources.now) first_body)) }
{
    let names = variables_of(alloc, known)?;
    let params = known.parameters(alloc)?;
    let directives = from_last(alloc, directives)?;
    let variables = declarations(alloc, known, &directives, &names)?;
    let items = items_of(alloc, known, &names, sources)?;
    Ok(Draft {
        items,
        params,
        variables,
    })
}
