// Tests of statements: their order, their targets, their DO variables and their labels.

ghost use Rattle.std.specs.Prelude.{◌≡◌, [], ◌∷◌, ◌||◌, not, nat_lt, length, map, IfOk, MatchOption};
ghost use Rattle.std.specs.List.{list_any};
ghost use Rattle.f77_forms.specs.View as view;
ghost use Rattle.f77_forms.specs.View.{expression_of};
ghost use Rattle.f77_scene.specs.Expressions as expressions;
ghost use Rattle.f77_scene.specs.Scene.{is_among};
ghost use Rattle.f77_scene.specs.Statements as statements;
ghost use Rattle.f77_scene.specs.Tests as tests;
ghost use Rattle.f77_program.specs.Known.{open_of};
ghost use Rattle.f77_program.specs.Operands.{forms_of};
ghost use Rattle.f77_program.specs.Pieces.{names_view};

use crate::known::Known;
use crate::marks::is_bad_rank;
use crate::names::Names;
use crate::opened::Opened;
use crate::parts::parts_of;
use f77_forms::{DoStatement, Expression, Statement, Target};
use std::alloc::{AllocError, Global};

/// Whether a statement with so many statements behind it stands in its place.
pub fn is_in_order(known: &Known, behind: usize, statement: &Statement) -> bool
    ensures { result ≡ tests.is_in_order known.now behind (view.statement_of statement.now) }
{
    match statement {
        Statement::Program(_) => known.count() == 0,
        Statement::Integer(_) | Statement::Dimension(_) | Statement::Parameter(_) => {
            !known.executes()
        }
        Statement::Stop => behind == 1 && known.opened().is_empty(),
        Statement::End => behind == 0,
        _ => true,
    }
}

/// What a statement stores to.
pub fn target_in(statement: &Statement) -> Option<&Target>
    ensures { MatchOption result (statements.targets_in (view.statement_of statement.now)
        ≡ []) (λ t. statements.targets_in (view.statement_of statement.now) ≡ view.target_of t.now
        ∷ []) }
{
    match statement {
        Statement::Assign(assignment) | Statement::If(_, assignment) => Some(&assignment.target),
        _ => None,
    }
}

/// Whether a statement stores to a named constant, or to a name with parentheses that is no array.
pub fn has_bad_target(known: &Known, statement: &Statement) -> bool
    ensures { result ≡ list_any (tests.is_bad_target known.now) (statements.targets_in
        (view.statement_of statement.now)) }
{
    match target_in(statement) {
        Some(target) => is_bad_target(known, target),
        None => false,
    }
}

fn is_bad_target(known: &Known, target: &Target) -> bool
    ensures { result ≡ tests.is_bad_target known.now (view.target_of target.now) }
{
    known.is_constant(&target.name) || (has_arguments(target) && !known.is_array(&target.name))
}

fn has_arguments(target: &Target) -> bool
    ensures { result ≡ nat_lt 0 (length (expressions.list_of
        (view.target_of target.now).arguments)) }
{
    !target.arguments.is_empty()
}

/// Whether a statement stores to the variable of a loop.
pub fn stores_to_loop_variable(known: &Known, statement: &Statement) -> bool
    ensures { result ≡ list_any (λ t. is_among known.now.loop_variables t.name)
        (statements.targets_in (view.statement_of statement.now)) }
{
    match target_in(statement) {
        Some(target) => known.is_loop_variable(&target.name),
        None => false,
    }
}

/// Whether a statement stores to an array with too many or too few subscripts.
pub fn has_badly_subscripted_target(known: &Known, statement: &Statement) -> bool
    ensures { result ≡ list_any (λ t. tests.is_bad_rank known.now t.name t.arguments)
        (statements.targets_in (view.statement_of statement.now)) }
{
    match target_in(statement) {
        Some(target) => is_badly_subscripted(known, target),
        None => false,
    }
}

fn is_badly_subscripted(known: &Known, target: &Target) -> bool
    ensures { result ≡ tests.is_bad_rank known.now (view.target_of target.now).name
        (view.target_of target.now).arguments }
{
    is_bad_rank(known, &target.name, target.arguments.len())
}

/// Whether a name is of a variable that is not INTEGER, where INTEGER statements have these names.
pub fn has_other_type(integers: &Names, names: &[&[u8]]) -> bool
    ensures { result ≡ list_any (λ n. not (tests.begins_i_to_n n || is_among integers.now n))
        (names_view names.now) }
{
    for name in names {
        if !(begins_i_to_n(name) || integers.contains(name)) {
            return true;
        }
    }
    false
}

fn begins_i_to_n(name: &[u8]) -> bool
    ensures { result ≡ tests.begins_i_to_n name.now }
{
    match name {
        [first, ..] => *first >= b'I' && *first <= b'N',
        [] => false,
    }
}

/// Whether a loop may end with this statement.
pub fn is_terminal(statement: &Statement) -> bool
    ensures { result ≡ tests.is_terminal (view.statement_of statement.now) }
{
    matches!(
        statement,
        Statement::Assign(_) | Statement::If(..) | Statement::Print(_) | Statement::Continue
    )
}

/// Whether a label is used twice, or ends loops that may not end there, or loops are open at END.
pub fn has_bad_label(known: &Known, label: u32, statement: &Statement) -> bool
    ensures { result ≡ tests.has_bad_label known.now label (view.statement_of statement.now) }
{
    (label > 0 && known.has_label(label))
        || (ends_a_loop(label, known.opened()) && !is_terminal(statement))
        || ends_a_loop(label, left_open(label, known.opened()))
        || (matches!(statement, Statement::End) && !known.opened().is_empty())
}

fn ends_a_loop(label: u32, opened: &[Opened]) -> bool
    ensures { result ≡ tests.ends_a_loop label (map open_of opened.now) }
{
    for open in opened {
        if open.label == u64::from(label) {
            return true;
        }
    }
    false
}

/// The loops that stay open behind a statement with this label.
pub fn left_open(label: u32, opened: &[Opened]) -> &[Opened]
    ensures { map open_of result.now ≡ tests.left_open label (map open_of opened.now) }
{
    for (place, open) in opened.iter().enumerate() {
        if open.label != u64::from(label) {
            return &opened[place..];
        }
    }
    &[]
}

/// Whether a DO variable is an array, a named constant or a scalar, is in use in a loop round this
/// one, or is read in the bounds or the step.
pub fn is_bad_loop(
    alloc: Global,
    known: &Known,
    statement: &DoStatement,
) -> Result<bool, AllocError>
    ensures { IfOk result (λ bad. bad ≡ tests.is_bad_loop known.now (view.do_of statement.now)) }
{
    let variable = statement.variable.as_slice();
    if known.is_array(variable)
        || known.is_constant(variable)
        || known.is_scalar(variable)
        || known.is_open(variable)
    {
        return Ok(true);
    }
    if reads(alloc, variable, &statement.first)? || reads(alloc, variable, &statement.last)? {
        return Ok(true);
    }
    match &statement.step {
        Some(step) => {
            let read = reads(alloc, variable, step)?;
            Ok(read)
        }
        None => Ok(false),
    }
}

/// Whether this name stands alone somewhere in an expression.
fn reads(alloc: Global, name: &[u8], e: &Expression) -> Result<bool, AllocError>
    ensures { IfOk result (λ found. found ≡ list_any (tests.is_named name.now) (expressions.parts_of
        (expression_of e.now))) }
{
    let parts = parts_of(alloc, e)?;
    Ok(is_among(name, &parts))
}

fn is_among(name: &[u8], parts: &[&Expression]) -> bool
    ensures { result ≡ list_any (tests.is_named name.now) (forms_of parts.now) }
{
    for part in parts {
        if is_named(name, part) {
            return true;
        }
    }
    false
}

fn is_named(name: &[u8], part: &Expression) -> bool
    ensures { result ≡ tests.is_named name.now (expression_of part.now) }
{
    match part {
        Expression::Name(other) => other.as_slice() == name,
        _ => false,
    }
}
