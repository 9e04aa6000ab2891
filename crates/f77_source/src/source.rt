// What a source lists, its statements with their forms, and the settings.

ghost use Rattle.std.specs.Prelude.{◌≡◌, ◌++◌, [], ◌∷◌, map, IfOk, OnOk, IsTrue};
ghost use Rattle.f77_forms.specs.View as view;
ghost use Rattle.f77_lines.specs.Listing.{entry_of};
ghost use Rattle.f77_program.specs.Pieces.{names_view};
ghost use Rattle.f77_program.specs.Wholes.{given_of, settings_of};
ghost use Rattle.f77_scene.specs.Reading as reading;
ghost use Rattle.f77_scene.specs.Statements as statements;
ghost use Rattle.f77_source.specs.Sources as spec;

use f77_forms::{Declarator, Statement, TextFault, read_statement};
use f77_lines::Line;
use f77_program::{Constants, Names, Whole};
use std::alloc::{AllocError, Global};

/// A value that a named constant gets in place of the one that is written.
#[derive(Debug, Drop)]
pub struct Setting {
    /// In capitals.
    pub name: Vec<u8>,
    pub value: i64,
}

/// A statement of a source, with the form of its text or the fault of a text without form.
#[derive(Drop)]
pub struct Source {
    /// The line where it begins, from 1.
    pub line: u32,
    /// Its label, 0 where it has none.
    pub label: u32,
    pub reading: Result<Statement, TextFault>,
}

/// What lines list.
#[derive(Drop)]
pub struct Contents<'a> {
    pub sources: Vec<Source>,
    /// The names in INTEGER statements, wherever these stand.
    pub integers: Names,
    /// The texts of directives.
    pub directives: Vec<&'a [u8]>,
}

/// What these lines list.
pub fn contents_of(alloc: Global, lines: &[Line]) -> Result<Contents<'_>, AllocError>
    ensures sources { IfOk result (λ c. map spec.source_of c.sources.items
        ≡ reading.statements_in (map entry_of lines.now)) }
    ensures integers { IfOk result (λ c. c.integers
        ≡ reading.integers_among (map spec.source_of c.sources.items)) }
    ensures directives { IfOk result (λ c. names_view c.directives.items
        ≡ reading.directives_of (map entry_of lines.now)) }
{
    let mut contents = Contents {
        sources: Vec::new(alloc),
        integers: Names::new(alloc),
        directives: Vec::new(alloc),
    };
    for line in lines {
        push_line(alloc, line, &mut contents)?;
    }
    Ok(contents)
}

/// One line more.
fn push_line<'a>(
    alloc: Global,
    line: &'a Line,
    contents: &mut Contents<'a>,
) -> Result<(), AllocError>
    ensures sources { OnOk result (map spec.source_of contents.new.sources.items
        ≡ map spec.source_of contents.old.sources.items
        ++ reading.statements_in (entry_of line.now ∷ [])) }
    ensures integers { OnOk result (contents.new.integers ≡ contents.old.integers
        ++ reading.integers_among (reading.statements_in (entry_of line.now ∷ []))) }
    ensures directives { OnOk result (names_view contents.new.directives.items
        ≡ names_view contents.old.directives.items
        ++ reading.directives_of (entry_of line.now ∷ [])) }
{
    match line {
        Line::Statement { line, label, text } => {
            let source = Source {
                line: *line,
                label: *label,
                reading: reading_of(alloc, text.as_slice())?,
            };
            push_integers(alloc, &mut contents.integers, &source)?;
            contents.sources.push(source)?;
            Ok(())
        }
        Line::Directive { line: _, text } => {
            contents.directives.push(text.as_slice())?;
            Ok(())
        }
    }
}

/// The form of a text, or its fault.
fn reading_of(alloc: Global, text: &[u8]) -> Result<Result<Statement, TextFault>, AllocError>
    ensures { IfOk result (λ r. spec.reading_view r ≡ reading.reading_of text.now) }
{
    match read_statement(alloc, text) {
        Ok(statement) => Ok(Ok(statement)),
        Err(fault) => match fault {
            TextFault::NoMemory => Err(AllocError),
            _ => Ok(Err(fault)),
        },
    }
}

/// What holds of a whole source with these names in INTEGER statements.
pub fn whole_of(alloc: Global, integers: Names, settings: &[Setting]) -> Result<Whole, AllocError>
    ensures given { IfOk result (λ whole. given_of whole ≡ record {
      settings = map spec.setting_of settings.now;
      integers = integers;
    }) }
    ensures values { OnOk result (IsTrue (spec.are_values (map spec.setting_of settings.now))) }
{
    let settings = last_first(alloc, settings)?;
    Ok(Whole { settings, integers })
}

/// The settings, the last one first.
fn last_first(alloc: Global, settings: &[Setting]) -> Result<Constants, AllocError>
    ensures settings { IfOk result (λ constants. settings_of constants
        ≡ map spec.setting_of settings.now) }
    ensures values { OnOk result (IsTrue (spec.are_values (map spec.setting_of settings.now))) }
{
    let mut constants = Constants::new(alloc);
    for place in (0..settings.len()).rev() {
        let setting = &settings[place];
        constants.push(alloc, setting.name.as_slice(), setting.value)?;
    }
    Ok(constants)
}

/// The names in a statement, if it is an INTEGER statement.
fn push_integers(alloc: Global, names: &mut Names, source: &Source) -> Result<(), AllocError>
    ensures { OnOk result (names.new ≡ names.old ++ reading.integers_with
        (spec.reading_view source.now.reading)) }
{
    match &source.reading {
        Ok(Statement::Integer(declarators)) => push_declared(alloc, names, declarators.as_slice()),
        _ => Ok(()),
    }
}

fn push_declared(
    alloc: Global,
    names: &mut Names,
    declarators: &[Declarator],
) -> Result<(), AllocError>
    ensures { OnOk result (names.new ≡ names.old ++ statements.declarator_names
        (map view.declarator_of declarators.now)) }
{
    for declarator in declarators {
        names.push(alloc, declarator.name.as_slice())?;
    }
    Ok(())
}
