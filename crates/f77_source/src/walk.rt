// The tree of statements without fault.

ghost use Rattle.std.specs.Prelude.{◌≡◌, ◌<◌, ◌^◌, map, length, IfOk, OnOk};
ghost use Rattle.nest_tree.specs.View.{statement_of};
ghost use Rattle.f77_forms.specs.View as forms;
ghost use Rattle.f77_scene.specs.Reading as reading;
ghost use Rattle.f77_scene.specs.Scene.{Given, first_scene};
ghost use Rattle.f77_scene.specs.Trees.{first_body};
ghost use Rattle.f77_source.specs.Bodies.{body_of};
ghost use Rattle.f77_source.specs.Sources.{reading_view, source_of};
ghost use Rattle.f77_source.specs.Stages as spec;

use crate::body::Body;
use crate::source::Source;
use f77_forms::Statement;
use f77_program::{Known, Names};
use nest_tree::Item;
use std::alloc::{AllocError, Global};

/// The outermost statements of a program, where its variables are numbered as they stand here.
/// `known` is what is known behind the last of its statements; then the loops that are open are
/// forgotten, and begin again.
pub fn items_of(
    alloc: Global,
    known: &mut Known,
    variables: &Names,
    sources: &[Source],
) -> Result<Vec<Item>, AllocError>
    requires few { length variables.now < 4294967295 }
    requires passed { (given : Given) × spec.ArePassed given (map source_of sources.now) known.old }
    ensures { (given : Given) → spec.ArePassed given (map source_of sources.now) known.old
        → IfOk result (λ items. map statement_of items.items
        ≡ (reading.body_from variables.now given first_scene (map source_of sources.now)
        first_body).items) }
{
    known.rewind();
    let mut body = Body::new(alloc);
    for source in sources {
        add_source(alloc, known, variables, source, &mut body)?;
    }
    Ok(body.items)
}

/// One statement more.
fn add_source(
    alloc: Global,
    known: &mut Known,
    variables: &Names,
    source: &Source,
    body: &mut Body,
) -> Result<(), AllocError>
    requires few { length variables.now < 4294967295 }
    requires loops { known.old.loops < 2 ^ 31 }
    requires affine { spec.AreWithin known.old (reading_view source.now.reading) }
    ensures known { OnOk result (known.new ≡ spec.stage_with known.old source.now.label
        (reading_view source.now.reading)) }
    ensures body { OnOk result (body_of body.new ≡ reading.body_with variables.now known.old
        source.now.line source.now.label (reading_view source.now.reading) (body_of body.old)) }
{
    if let Ok(statement) = &source.reading {
        body.add(
            alloc,
            known,
            variables,
            source.line,
            source.label,
            statement,
        )?;
        enter(alloc, known, source.label, statement)?;
    }
    Ok(())
}

/// The loops that are open behind a statement.
fn enter(
    alloc: Global,
    known: &mut Known,
    label: u32,
    statement: &Statement,
) -> Result<(), AllocError>
    requires { known.old.loops < 2 ^ 31 }
    ensures { OnOk result (known.new ≡ spec.stage_behind known.old label
        (forms.statement_of statement.now)) }
{
    match statement {
        Statement::Program(_) => Ok(()),
        Statement::Integer(_) => Ok(()),
        Statement::Dimension(_) => Ok(()),
        Statement::Parameter(_) => Ok(()),
        Statement::Do(statement) => {
            known.open(alloc, &statement.variable, statement.label.value())?;
            Ok(())
        }
        _ => {
            known.execute(alloc, label, &[])?;
            Ok(())
        }
    }
}
