// Whether two programs agree.

ghost use Rattle.std.specs.Prelude.{◌≡◌, ◌-◌, ◌↔◌, IsTrue, map};
ghost use Rattle.std.specs.List.{flat_map, list_all};
ghost use Rattle.nest_tree.specs.Layout.{bounds_at};
ghost use Rattle.nest_tree.specs.View.{constant_of, declaration_of, printed_of, statement_of, statements_from, tree_of};
ghost use Rattle.nest_agree.specs.Agree.{Agree, do_agree, printed_in, printed_whole, whole_in};
ghost use Rattle.nest_agree.specs.Same.{same_bounds, same_kind, same_list, same_name, same_statements as same_items, spread_number};

use crate::statements::{same_bytes, same_statements};
use nest_tree::{Item, Parameter, PrintItem, Program, Spread, Variable};

/// Whether two programs agree: their statements are equal; their named constants have the same
/// names; their variables have the same names, as many dimensions, and the same distribution; and
/// arrays that are printed whole have the same bounds. Values of named constants may differ, and
/// bounds of the other arrays. It takes no memory.
pub fn agrees(f: &Program, g: &Program) -> bool
    ensures { IsTrue result ↔ Agree (tree_of f.now) (tree_of g.now) }
{
    do_agree(f, g)
}

fn do_agree(f: &Program, g: &Program) -> bool
    ensures { result ≡ do_agree (tree_of f.now) (tree_of g.now) }
{
    have_same_items(f, g)
        && have_same_names(f, g)
        && have_same_kinds(f, g)
        && have_same_wholes(f, g)
}

fn have_same_items(f: &Program, g: &Program) -> bool
    ensures { result ≡ same_items (tree_of f.now).items (tree_of g.now).items }
{
    same_statements(&f.items, &g.items)
}

fn have_same_names(f: &Program, g: &Program) -> bool
    ensures { result ≡ same_list same_name (tree_of f.now).params (tree_of g.now).params }
{
    same_names(&f.params, &g.params)
}

fn have_same_kinds(f: &Program, g: &Program) -> bool
    ensures { result ≡ same_list same_kind (tree_of f.now).variables (tree_of g.now).variables }
{
    same_kinds(&f.variables, &g.variables)
}

fn have_same_wholes(f: &Program, g: &Program) -> bool
    ensures { result ≡ list_all (same_bounds (tree_of f.now).variables (tree_of g.now).variables)
        (printed_whole (tree_of f.now).items) }
{
    have_same_bounds(&f.items, &f.variables, &g.variables)
}

fn same_names(a: &[Parameter], b: &[Parameter]) -> bool
    ensures { result ≡ same_list (λ c d. same_name (constant_of c) (constant_of d)) a.now b.now }
{
    for (place, constant) in a.iter().enumerate() {
        if place >= b.len() || !same_bytes(&constant.name, &b[place].name) {
            return false;
        }
    }
    b.len() <= a.len()
}

fn spread_number(spread: Spread) -> u8
    ensures { result ≡ spread_number spread }
{
    match spread {
        Spread::Block => 0,
        Spread::Cyclic => 1,
    }
}

fn same_kind(v: &Variable, w: &Variable) -> bool
    ensures { result ≡ same_kind (declaration_of v.now) (declaration_of w.now) }
{
    same_bytes(&v.name, &w.name)
        && v.bounds.len() == w.bounds.len()
        && v.axis == w.axis
        && spread_number(v.spread) == spread_number(w.spread)
}

fn same_kinds(a: &[Variable], b: &[Variable]) -> bool
    ensures { result ≡ same_list (λ v w. same_kind (declaration_of v) (declaration_of w)) a.now
        b.now }
{
    for (place, variable) in a.iter().enumerate() {
        if place >= b.len() || !same_kind(variable, &b[place]) {
            return false;
        }
    }
    b.len() <= a.len()
}

// The bounds of the variable with this number, from 1; none where there is no such variable.
fn bounds(variables: &[Variable], number: u32) -> &[(i64, i64)]
    ensures { result.now ≡ bounds_at (map declaration_of variables.now) (number - 1) }
{
    let place = (number as usize).saturating_sub(1);
    if place < variables.len() {
        variables[place].bounds.as_slice()
    } else {
        &[]
    }
}

fn same_bounds(f: &[Variable], g: &[Variable], number: u32) -> bool
    ensures { result ≡ same_bounds (map declaration_of f.now) (map declaration_of g.now) number }
{
    bounds(f, number) == bounds(g, number)
}

// Whether the arrays that these items of a PRINT print whole have the same bounds.
fn same_wholes(items: &[PrintItem], f: &[Variable], g: &[Variable]) -> bool
    ensures { result ≡ list_all (same_bounds (map declaration_of f.now) (map declaration_of g.now))
        (flat_map whole_in (map printed_of items.now)) }
{
    for item in items {
        if !same_whole(item, f, g) {
            return false;
        }
    }
    true
}

fn same_whole(item: &PrintItem, f: &[Variable], g: &[Variable]) -> bool
    ensures { result ≡ list_all (same_bounds (map declaration_of f.now) (map declaration_of g.now))
        (whole_in (printed_of item.now)) }
{
    match item {
        PrintItem::Whole(number) => same_bounds(f, g, *number),
        PrintItem::Value(_) | PrintItem::Text(_) => true,
    }
}

// Whether the arrays that these statements print whole have the same bounds.
#[cycle(bounds)]
fn have_same_bounds(items: &[Item], f: &[Variable], g: &[Variable]) -> bool
    ensures { result ≡ list_all (same_bounds (map declaration_of f.now) (map declaration_of g.now))
        (printed_whole (statements_from items.now)) }
{
    for item in items {
        if !has_same_bounds(item, f, g) {
            return false;
        }
    }
    true
}

#[cycle(bounds)]
fn has_same_bounds(item: &Item, f: &[Variable], g: &[Variable]) -> bool
    ensures { result ≡ list_all (same_bounds (map declaration_of f.now) (map declaration_of g.now))
        (printed_in (statement_of item.now)) }
{
    match item {
        Item::Loop(nest) => have_same_bounds(&nest.items, f, g),
        Item::Print(items, _) => same_wholes(items, f, g),
        Item::Assign(..) | Item::Continue(_) => true,
    }
}
