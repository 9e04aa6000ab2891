// The trees of executable statements.

ghost use Rattle.std.specs.Prelude.{◌≡◌, ◌<◌, ◌++◌, [], ◌∷◌, Option, Some, None, map, length, IfOk, OnOk};
ghost use Rattle.std.specs.List.{flat_map};
ghost use Rattle.nest_tree.specs.View.{printed_of, statement_of};
ghost use Rattle.f77_forms.specs.View as forms;
ghost use Rattle.f77_program.specs.Reaches.{reach_of};
ghost use Rattle.f77_program.specs.declared.reach.Reach.TheVariants.{Within};
ghost use Rattle.f77_scene.specs.Expressions.{list_of};
ghost use Rattle.f77_scene.specs.Tests.{affine_in, subscripts_in};
ghost use Rattle.f77_scene.specs.Trees as trees;
ghost use Rattle.f77_source.specs.Items as spec;

use crate::form::{form_of, forms_of};
use crate::tree::{access, tree_of, variable_number};
use f77_forms::{Assignment, Compare, Comparison, Expression, Printed, Statement};
use f77_program::{Known, Names};
use nest_tree::{Guard, Item, PrintItem};
use std::alloc::{AllocError, Global};

/// The tree of an executable statement but DO, behind these. STOP, END and declarations have none.
pub fn push_item(
    alloc: Global,
    known: &Known,
    variables: &Names,
    line: u32,
    statement: &Statement,
    items: &mut Vec<Item>,
) -> Result<(), AllocError>
    requires few { length variables.now < 4294967295 }
    requires affine { reach_of known.now (affine_in known.now (forms.statement_of statement.now))
        ≡ Within }
    ensures { OnOk result (map statement_of items.new.items ≡ map statement_of items.old.items
        ++ trees.statement_tree variables.now known.now line (forms.statement_of statement.now)) }
{
    match statement {
        Statement::Assign(a) => {
            items.push(assignment(alloc, known, variables, line, None, a)?)?;
        }
        Statement::If(comparison, a) => {
            let guard = guard_of(alloc, known, comparison)?;
            items.push(assignment(alloc, known, variables, line, Some(guard), a)?)?;
        }
        Statement::Print(printed) => {
            let printed = printed_in(alloc, known, variables, printed)?;
            items.push(Item::Print(printed, line))?;
        }
        Statement::Continue => items.push(Item::Continue(line))?,
        _ => {}
    }
    Ok(())
}

fn assignment(
    alloc: Global,
    known: &Known,
    variables: &Names,
    line: u32,
    guard: Option<Guard>,
    a: &Assignment,
) -> Result<Item, AllocError>
    requires few { length variables.now < 4294967295 }
    requires affine { reach_of known.now (list_of (forms.target_of a.now.target).arguments
        ++ subscripts_in known.now (forms.expression_of a.now.value)) ≡ Within }
    ensures { IfOk result (λ item. statement_of item ≡ trees.assignment_tree variables.now known.now
        line guard (forms.assignment_of a.now)) }
{
    let subscripts = forms_of(alloc, known, &a.target.arguments)?;
    let target = access(variables, &a.target.name, subscripts);
    let value = tree_of(alloc, known, variables, &a.value)?;
    Ok(Item::Assign(target, value, guard, line))
}

fn guard_of(alloc: Global, known: &Known, comparison: &Comparison) -> Result<Guard, AllocError>
    requires left { reach_of known.now (forms.expression_of comparison.now.left ∷ []) ≡ Within }
    requires right { reach_of known.now (forms.expression_of comparison.now.right ∷ []) ≡ Within }
    ensures { IfOk result (λ g. g ≡ trees.guard_of known.now (forms.comparison_of comparison.now)) }
{
    let left = form_of(alloc, known, &comparison.left)?;
    let right = form_of(alloc, known, &comparison.right)?;
    Ok(Guard {
        left,
        op: compare_of(comparison.compare),
        right,
    })
}

fn compare_of(compare: Compare) -> nest_tree::Compare
    ensures { result ≡ trees.compare_of compare }
{
    match compare {
        Compare::Lt => nest_tree::Compare::Lt,
        Compare::Le => nest_tree::Compare::Le,
        Compare::Eq => nest_tree::Compare::Eq,
        Compare::Ge => nest_tree::Compare::Ge,
        Compare::Gt => nest_tree::Compare::Gt,
    }
}

/// The items of a PRINT.
fn printed_in(
    alloc: Global,
    known: &Known,
    variables: &Names,
    printed: &[Printed],
) -> Result<Vec<PrintItem>, AllocError>
    requires few { length variables.now < 4294967295 }
    requires affine { reach_of known.now (flat_map (spec.item_subscripts known.now)
        (map forms.printed_of printed.now)) ≡ Within }
    ensures { IfOk result (λ items. map printed_of items.items
        ≡ map (trees.item_tree variables.now known.now) (map forms.printed_of printed.now)) }
{
    let mut items = Vec::new(alloc);
    for item in printed {
        items.push(printed_item(alloc, known, variables, item)?)?;
    }
    Ok(items)
}

fn printed_item(
    alloc: Global,
    known: &Known,
    variables: &Names,
    item: &Printed,
) -> Result<PrintItem, AllocError>
    requires few { length variables.now < 4294967295 }
    requires affine { reach_of known.now (spec.item_subscripts known.now
        (forms.printed_of item.now)) ≡ Within }
    ensures { IfOk result (λ i. printed_of i ≡ trees.item_tree variables.now known.now
        (forms.printed_of item.now)) }
{
    match item {
        Printed::Text(characters) => {
            Ok(PrintItem::Text(Vec::from_slice(alloc, characters.as_slice())?))
        }
        Printed::Value(e) => printed_value(alloc, known, variables, e),
    }
}

/// A whole array, or the value of an expression.
fn printed_value(
    alloc: Global,
    known: &Known,
    variables: &Names,
    e: &Expression,
) -> Result<PrintItem, AllocError>
    requires few { length variables.now < 4294967295 }
    requires affine { reach_of known.now (subscripts_in known.now (forms.expression_of e.now))
        ≡ Within }
    ensures { IfOk result (λ i. printed_of i ≡ trees.value_tree variables.now known.now
        (forms.expression_of e.now)) }
{
    match e {
        Expression::Name(name) if known.is_array(name) => {
            Ok(PrintItem::Whole(variable_number(variables, name)))
        }
        _ => Ok(PrintItem::Value(tree_of(alloc, known, variables, e)?)),
    }
}
