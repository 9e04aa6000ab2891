// The names and the expressions of a statement.

ghost use Rattle.std.specs.Prelude.{◌≡◌, ◌++◌, [], ◌∷◌, IfOk, OnOk, map};
ghost use Rattle.std.specs.List.{flat_map};
ghost use Rattle.f77_forms.specs.View as view;
ghost use Rattle.f77_forms.specs.View.{expression_of};
ghost use Rattle.f77_scene.specs.Expressions as expressions;
ghost use Rattle.f77_scene.specs.Statements as statements;
ghost use Rattle.f77_program.specs.Operands.{forms_of};
ghost use Rattle.f77_program.specs.Pieces as spec;
ghost use Rattle.f77_program.specs.Pieces.{pieces_view};

use crate::known::Known;
use crate::parts::parts_of;
use f77_forms::{
    Assignment, Bound, Declarator, Definition, DoStatement, Expression, Printed, Statement,
};
use std::alloc::{AllocError, Global};

/// A piece of a statement.
pub enum Piece<'a> {
    /// A name that is declared, defined or stored to, or a DO variable.
    Name(&'a [u8]),
    Expression(&'a Expression),
}

impl Drop for Piece<'_> {
    fn drop(self) {
        match self {
            Piece::Name(_) | Piece::Expression(_) => {}
        }
    }
}

/// The pieces of a statement, in the order of the text.
pub fn pieces_in<'a>(alloc: Global, statement: &'a Statement) -> Result<Vec<Piece<'a>>, AllocError>
    ensures { IfOk result (λ pieces. pieces_view pieces.items
        ≡ spec.pieces_in (view.statement_of statement.now)) }
{
    let mut pieces = Vec::new(alloc);
    match statement {
        Statement::Integer(declarators) | Statement::Dimension(declarators) => {
            push_declarators(&mut pieces, declarators.as_slice())?;
        }
        Statement::Parameter(definitions) => push_definitions(&mut pieces, definitions.as_slice())?,
        Statement::Do(statement) => push_do(&mut pieces, statement)?,
        Statement::Assign(assignment) => push_assignment(&mut pieces, assignment)?,
        Statement::If(comparison, assignment) => {
            pieces.push(Piece::Expression(&comparison.left))?;
            pieces.push(Piece::Expression(&comparison.right))?;
            push_assignment(&mut pieces, assignment)?;
        }
        Statement::Print(items) => push_items(&mut pieces, items.as_slice())?,
        Statement::Program(_) | Statement::Continue | Statement::Stop | Statement::End => {}
    }
    Ok(pieces)
}

fn push_declarators<'a>(
    pieces: &mut Vec<Piece<'a>>,
    declarators: &'a [Declarator],
) -> Result<(), AllocError>
    ensures { OnOk result (pieces_view pieces.new.items ≡ pieces_view pieces.old.items
        ++ flat_map spec.declarator_pieces (map view.declarator_of declarators.now)) }
{
    for declarator in declarators {
        pieces.push(Piece::Name(declarator.name.as_slice()))?;
        push_bounds(pieces, declarator.bounds.as_slice())?;
    }
    Ok(())
}

fn push_bounds<'a>(pieces: &mut Vec<Piece<'a>>, bounds: &'a [Bound]) -> Result<(), AllocError>
    ensures { OnOk result (pieces_view pieces.new.items ≡ pieces_view pieces.old.items
        ++ flat_map spec.bound_pieces (map view.bound_of bounds.now)) }
{
    for bound in bounds {
        if let Some(lower) = &bound.lower {
            pieces.push(Piece::Expression(lower))?;
        }
        pieces.push(Piece::Expression(&bound.upper))?;
    }
    Ok(())
}

fn push_definitions<'a>(
    pieces: &mut Vec<Piece<'a>>,
    definitions: &'a [Definition],
) -> Result<(), AllocError>
    ensures { OnOk result (pieces_view pieces.new.items ≡ pieces_view pieces.old.items
        ++ flat_map spec.definition_pieces (map view.definition_of definitions.now)) }
{
    for definition in definitions {
        pieces.push(Piece::Name(definition.name.as_slice()))?;
        pieces.push(Piece::Expression(&definition.value))?;
    }
    Ok(())
}

fn push_do<'a>(pieces: &mut Vec<Piece<'a>>, statement: &'a DoStatement) -> Result<(), AllocError>
    ensures { OnOk result (pieces_view pieces.new.items ≡ pieces_view pieces.old.items
        ++ spec.do_pieces (view.do_of statement.now)) }
{
    pieces.push(Piece::Name(statement.variable.as_slice()))?;
    pieces.push(Piece::Expression(&statement.first))?;
    pieces.push(Piece::Expression(&statement.last))?;
    if let Some(step) = &statement.step {
        pieces.push(Piece::Expression(step))?;
    }
    Ok(())
}

fn push_assignment<'a>(
    pieces: &mut Vec<Piece<'a>>,
    assignment: &'a Assignment,
) -> Result<(), AllocError>
    ensures { OnOk result (pieces_view pieces.new.items ≡ pieces_view pieces.old.items
        ++ spec.assignment_pieces (view.assignment_of assignment.now)) }
{
    pieces.push(Piece::Name(assignment.target.name.as_slice()))?;
    push_expressions(pieces, assignment.target.arguments.as_slice())?;
    pieces.push(Piece::Expression(&assignment.value))?;
    Ok(())
}

fn push_expressions<'a>(
    pieces: &mut Vec<Piece<'a>>,
    expressions: &'a [Expression],
) -> Result<(), AllocError>
    ensures { OnOk result (pieces_view pieces.new.items ≡ pieces_view pieces.old.items
        ++ map spec.expressed (map expression_of expressions.now)) }
{
    for e in expressions {
        pieces.push(Piece::Expression(e))?;
    }
    Ok(())
}

fn push_items<'a>(pieces: &mut Vec<Piece<'a>>, items: &'a [Printed]) -> Result<(), AllocError>
    ensures { OnOk result (pieces_view pieces.new.items ≡ pieces_view pieces.old.items
        ++ flat_map spec.item_pieces (map view.printed_of items.now)) }
{
    for item in items {
        if let Printed::Value(e) = item {
            pieces.push(Piece::Expression(e))?;
        }
    }
    Ok(())
}

/// The names of variables and constants among pieces, in the order of the text.
pub fn names_in<'a>(
    alloc: Global,
    known: &Known,
    pieces: &[Piece<'a>],
) -> Result<Vec<&'a [u8]>, AllocError>
    ensures { IfOk result (λ names. spec.names_view names.items
        ≡ flat_map (spec.piece_names known.now) (pieces_view pieces.now)) }
{
    let mut names = Vec::new(alloc);
    for piece in pieces {
        match piece {
            Piece::Name(name) => names.push(*name)?,
            Piece::Expression(e) => push_names(alloc, known, e, &mut names)?,
        }
    }
    Ok(names)
}

fn push_names<'a>(
    alloc: Global,
    known: &Known,
    e: &'a Expression,
    names: &mut Vec<&'a [u8]>,
) -> Result<(), AllocError>
    ensures { OnOk result (spec.names_view names.new.items ≡ spec.names_view names.old.items
        ++ expressions.names_in known.now (expression_of e.now)) }
{
    let parts = parts_of(alloc, e)?;
    for part in &parts {
        push_name(known, part, names)?;
    }
    Ok(())
}

fn push_name<'a>(
    known: &Known,
    part: &'a Expression,
    names: &mut Vec<&'a [u8]>,
) -> Result<(), AllocError>
    ensures { OnOk result (spec.names_view names.new.items ≡ spec.names_view names.old.items
        ++ expressions.name_in known.now (expression_of part.now)) }
{
    match part {
        Expression::Name(name) => names.push(name.as_slice())?,
        Expression::Call(name, _) => {
            if !known.is_function(name) {
                names.push(name.as_slice())?;
            }
        }
        _ => {}
    }
    Ok(())
}

/// The expressions among pieces, without the whole arrays of a PRINT.
pub fn expressions_in<'a>(
    alloc: Global,
    known: &Known,
    printed: bool,
    pieces: &[Piece<'a>],
) -> Result<Vec<&'a Expression>, AllocError>
    ensures { IfOk result (λ es. forms_of es.items ≡ flat_map (spec.piece_expressions known.now
        printed) (pieces_view pieces.now)) }
{
    let mut expressions = Vec::new(alloc);
    for piece in pieces {
        if let Piece::Expression(e) = piece {
            if !(printed && is_whole(known, e)) {
                expressions.push(*e)?;
            }
        }
    }
    Ok(expressions)
}

/// Whether this is the name of a whole array.
pub fn is_whole(known: &Known, e: &Expression) -> bool
    ensures { result ≡ statements.is_whole known.now (expression_of e.now) }
{
    match e {
        Expression::Name(name) => known.is_array(name),
        _ => false,
    }
}
