//! The anchors of the static phases.

ghost use Rattle.std.specs.Prelude.{◌≡◌, ◌≤◌, ◌<◌, ◌-◌, ◌==◌, IfOk, IfSome, IsTrue, Some, slice_get, length};
ghost use Rattle.std.specs.List.{list_any};
ghost use Rattle.nest_tree.specs.Loads.{loads_among, loads_in};
ghost use Rattle.nest_tree.specs.View.{declaration_of, expression_of, expressions_from, statement_of, statements_from, tree_of};
ghost use Rattle.nest_tree.specs.WellFormed.{loops_of};
ghost use Rattle.nest_walk.specs.Texts.{placed};
ghost use Rattle.owner_partition.specs.Marks.{enters_outer};
ghost use Rattle.owner_partition.specs.Placement.{phase_ends};
ghost use Rattle.owner_partition.specs.StaticPhases.{loops_round};
ghost use Rattle.nest_tree.specs.Form.{is_given};
ghost use Rattle.maker_anchors.specs.Anchors.{along, along_axis, element_owner, first_among, first_found, first_of, if_good, if_one_good, less, maker_anchors, phase_anchor, placed_anchor, span_of, value_of};
ghost use Rattle.maker_anchors.specs.Scopes.{constants_at, found_anchor, good_element_anchor, good_load_anchor, good_own_anchor, loops_at, sought_in, sum_anchor};

use crate::places::{dealt_as, extent, extent_between, first_processor, in_blocks, item_at, less};
use crate::scope::{Scope, Sought};
use nest_tree::{Access, Affine, Expr, Item, Pairs, Program, Spread, Variable};
use owner_partition::{Anchor, Cut, Dist, StaticPhase, check_anchor};
use plan_shape::own_loop;
use std::alloc::{AllocError, Global};
use sync_plan::Plan;

/// The anchors of a program's static phases under a cut, in text order, for so many workers.
pub fn anchors_of(
    alloc: Global,
    program: &Program,
    cut: &Cut,
    workers: u32,
) -> Result<Vec<Anchor>, AllocError>
    requires some { 1 ≤ workers }
    ensures { IfOk result (λ anchors. anchors.items
        ≡ maker_anchors (tree_of program.now) cut.now.marks workers) }
{
    let mut anchors = Vec::new(alloc);
    for place in 0..StaticPhase::count(program, cut) {
        let number = place + 1;
        let Some(phase) = StaticPhase::at(program, cut, number) else {
            return Ok(anchors);
        };
        anchors.push(phase_anchor(alloc, program, cut, workers, number, &phase)?)?;
    }
    Ok(anchors)
}

// The anchor of a static phase: the one with this number.
fn phase_anchor(
    alloc: Global,
    program: &Program,
    cut: &Cut,
    workers: u32,
    number: u32,
    phase: &StaticPhase,
) -> Result<Anchor, AllocError>
    requires some { 1 ≤ workers }
    requires phase { slice_get (placed (tree_of program.now) (enters_outer cut.now.marks))
        (number - 1)
        ≡ Some (record { what = statement_of phase.now.item.now; around = loops_round phase.now }) }
    ensures { IfOk result (λ a. a ≡ phase_anchor (tree_of program.now) cut.now.marks workers number
        (record { what = statement_of phase.now.item.now; around = loops_round phase.now })) }
{
    if phase.item.has_print() {
        return Ok(first_processor(alloc));
    }
    let scope = Scope {
        program,
        phase,
        own: own_loop(cut, phase.item),
        workers,
    };
    match found_anchor(alloc, scope, cut, number)? {
        Some(anchor) => Ok(placed(program, cut, workers, number, anchor)),
        None => Ok(first_processor(alloc)),
    }
}

/// The anchor of an element's owner in front of a static phase, the one with this number, where it
/// names no loop but the Outer ones round it: its place along its array's distributed dimension, as
/// its array is spread; in turn where blocks of it would be left.
pub fn element_owner(
    alloc: Global,
    program: &Program,
    plan: &Plan,
    number: u32,
    phase: &StaticPhase,
    access: &Access,
) -> Result<Option<Anchor>, AllocError>
    requires some { 1 ≤ plan.now.workers }
    requires phase { slice_get (placed (tree_of program.now) (enters_outer plan.now.cut.marks))
        (number - 1)
        ≡ Some (record { what = statement_of phase.now.item.now; around = loops_round phase.now }) }
    ensures { IfOk result (λ o. o
        ≡ element_owner (tree_of program.now) plan.now.cut.marks plan.now.workers number
        (loops_round phase.now) access.now) }
{
    let scope = Scope {
        program,
        phase,
        own: None,
        workers: plan.workers,
    };
    match element_anchor(alloc, scope, access)? {
        Some(anchor) => {
            let anchor = placed(program, &plan.cut, plan.workers, number, anchor);
            Ok(Some(anchor))
        }
        None => Ok(None),
    }
}

// The first good anchor of what a phase stores, of what a Sum phase loads, and of its own loop's
// value.
fn found_anchor(
    alloc: Global,
    scope: Scope,
    cut: &Cut,
    number: u32,
) -> Result<Option<Anchor>, AllocError>
    requires some { 1 ≤ scope.workers }
    requires own { IfSome scope.own (λ n. (1 ≤ n)
        × (n ≤ loops_of (tree_of scope.program.now).items)) }
    ensures { IfOk result (λ o. o ≡ found_anchor scope.entry cut.now.marks number
        (statement_of scope.entry.phase.now.item.now)) }
{
    if let Some(anchor) = first_found(alloc, scope, Sought::Stored, scope.phase.item)? {
        return Ok(Some(anchor));
    }
    if let Some(anchor) = sum_anchor(alloc, scope, cut)? {
        return Ok(Some(anchor));
    }
    own_anchor(alloc, scope, cut, number)
}

// The anchor, or the same places in turn where blocks of them would be left.
fn placed(program: &Program, cut: &Cut, workers: u32, number: u32, anchor: Anchor) -> Anchor
    requires given { IsTrue (is_given anchor.form (loops_of (tree_of program.now).items)
        (length (tree_of program.now).params)) }
    ensures { result ≡ placed_anchor (tree_of program.now) cut.now.marks workers number
        (Some anchor) }
{
    match check_anchor(program, cut, number, &anchor, workers) {
        Ok(()) => anchor,
        Err(_) => Anchor {
            form: anchor.form,
            dist: Dist::Cyclic,
        },
    }
}

// The first good anchor of what a Sum phase loads that names its loop.
fn sum_anchor(alloc: Global, scope: Scope, cut: &Cut) -> Result<Option<Anchor>, AllocError>
    requires { 1 ≤ scope.workers }
    ensures { IfOk result (λ o. o ≡ sum_anchor scope.entry cut.now.marks
        (statement_of scope.entry.phase.now.item.now) scope.entry.own) }
{
    match scope.own {
        Some(own) if cut.mark(own).is_sum() => {
            first_found(alloc, scope, Sought::Loaded(own), scope.phase.item)
        }
        Some(_) | None => Ok(None),
    }
}

// The first anchor that is sought in these statements.
#[cycle(found)]
fn first_among(
    alloc: Global,
    scope: Scope,
    sought: Sought,
    items: &[Item],
) -> Result<Option<Anchor>, AllocError>
    requires { 1 ≤ scope.workers }
    ensures { IfOk result (λ o. o ≡ first_among (sought_in scope.entry sought)
        (statements_from items.now)) }
{
    for item in items {
        if let Some(anchor) = first_found(alloc, scope, sought, item)? {
            return Ok(Some(anchor));
        }
    }
    Ok(None)
}

#[cycle(found)]
fn first_found(
    alloc: Global,
    scope: Scope,
    sought: Sought,
    item: &Item,
) -> Result<Option<Anchor>, AllocError>
    requires { 1 ≤ scope.workers }
    ensures { IfOk result (λ o. o ≡ first_found (sought_in scope.entry sought)
        (statement_of item.now)) }
{
    match item {
        Item::Loop(nest) => first_among(alloc, scope, sought, &nest.items),
        Item::Assign(target, value, ..) => match sought {
            Sought::Stored => element_anchor(alloc, scope, target),
            Sought::Loaded(own) => first_loaded(alloc, scope, own, value),
        },
        Item::Print(..) | Item::Continue(_) => Ok(None),
    }
}

// The first anchor of what an expression loads that is good and names a loop.
#[cycle(loaded)]
#[tactic(auto, using(crate::proofs::Found::first_append))]
fn first_loaded(
    alloc: Global,
    scope: Scope,
    own: u32,
    value: &Expr,
) -> Result<Option<Anchor>, AllocError>
    requires { 1 ≤ scope.workers }
    ensures { IfOk result (λ o. o ≡ first_of (good_load_anchor scope.entry own)
        (loads_in (expression_of value.now))) }
{
    match value {
        Expr::Number(_) | Expr::LoopValue(_) | Expr::Param(_) => Ok(None),
        Expr::Load(access) => load_anchor(alloc, scope, own, access),
        Expr::Neg(a) | Expr::Div(a, _) => first_loaded(alloc, scope, own, a),
        Expr::Add(a, b) | Expr::Sub(a, b) | Expr::Mul(a, b) => {
            if let Some(anchor) = first_loaded(alloc, scope, own, a)? {
                return Ok(Some(anchor));
            }
            first_loaded(alloc, scope, own, b)
        }
        Expr::Min(arguments) => first_loaded_among(alloc, scope, own, arguments),
        Expr::Max(arguments) => first_loaded_among(alloc, scope, own, arguments),
    }
}

// The same of what arguments load.
#[cycle(loaded)]
fn first_loaded_among(
    alloc: Global,
    scope: Scope,
    own: u32,
    arguments: &[Expr],
) -> Result<Option<Anchor>, AllocError>
    requires { 1 ≤ scope.workers }
    ensures { IfOk result (λ o. o ≡ first_of (good_load_anchor scope.entry own)
        (loads_among (expressions_from arguments.now))) }
{
    for argument in arguments {
        if let Some(anchor) = first_loaded(alloc, scope, own, argument)? {
            return Ok(Some(anchor));
        }
    }
    Ok(None)
}

// The place of an element, if it is a good anchor that names a loop.
fn load_anchor(
    alloc: Global,
    scope: Scope,
    own: u32,
    access: &Access,
) -> Result<Option<Anchor>, AllocError>
    requires { 1 ≤ scope.workers }
    ensures { IfOk result (λ o. o ≡ good_load_anchor scope.entry own access.now) }
{
    match element_anchor(alloc, scope, access)? {
        Some(anchor) if names(&anchor, own) => Ok(Some(anchor)),
        Some(_) | None => Ok(None),
    }
}

// Whether an anchor names this loop.
fn names(anchor: &Anchor, own: u32) -> bool
    ensures { result ≡ list_any (λ p. p.0 == own) anchor.now.form.loops }
{
    anchor.form.loops().iter().any(|pair| pair.0 == own)
}

// The place of an element along its array's distributed dimension, if it is a good anchor.
fn element_anchor(
    alloc: Global,
    scope: Scope,
    access: &Access,
) -> Result<Option<Anchor>, AllocError>
    requires { 1 ≤ scope.workers }
    ensures { IfOk result (λ o. o ≡ good_element_anchor scope.entry access.now) }
{
    let number = (access.variable as usize).saturating_sub(1);
    match item_at(scope.program.variables.as_slice(), number) {
        Some(variable) => { variable_anchor(alloc, scope, variable, access.subscripts.as_slice()) }
        None => Ok(None),
    }
}

// The same for an element of this variable.
fn variable_anchor(
    alloc: Global,
    scope: Scope,
    variable: &Variable,
    subscripts: &[Affine],
) -> Result<Option<Anchor>, AllocError>
    requires { 1 ≤ scope.workers }
    ensures { IfOk result (λ o. o ≡ if_one_good (constants_at scope.entry) (loops_at scope.entry)
        (along_axis scope.entry.workers subscripts.now (Some (declaration_of variable.now)))) }
{
    let axis = (variable.axis as usize).saturating_sub(1);
    let Some(subscript) = item_at(subscripts, axis) else {
        return Ok(None);
    };
    match item_at(variable.bounds.as_slice(), axis) {
        Some(&bounds) => along_anchor(alloc, scope, variable.spread, subscript, bounds),
        None => Ok(None),
    }
}

// The same for a subscript along a dimension with these bounds.
fn along_anchor(
    alloc: Global,
    scope: Scope,
    spread: Spread,
    subscript: &Affine,
    bounds: (i64, i64),
) -> Result<Option<Anchor>, AllocError>
    requires { 1 ≤ scope.workers }
    ensures { IfOk result (λ o. o ≡ if_one_good (constants_at scope.entry) (loops_at scope.entry)
        (along scope.entry.workers spread (Some subscript.now) (Some bounds))) }
{
    let places = extent_between(bounds.0, bounds.1);
    let dist = dealt_as(spread, scope.workers, places);
    good_anchor(alloc, scope, subscript, i128::from(bounds.0), dist)
}

// The anchor of a form less a number, if it is a good one.
fn good_anchor(
    alloc: Global,
    scope: Scope,
    form: &Affine,
    low: i128,
    dist: Dist,
) -> Result<Option<Anchor>, AllocError>
    ensures { IfOk result (λ o. o ≡ if_good (constants_at scope.entry) (loops_at scope.entry)
        (record { form = less form.now low; dist = dist })) }
{
    let Some(form) = less(alloc, form, low)? else {
        return Ok(None);
    };
    let anchor = Anchor { form, dist };
    if scope.is_good_anchor(&anchor) {
        Ok(Some(anchor))
    } else {
        Ok(None)
    }
}

// The value of a Doall loop, if it is a good anchor.
fn own_anchor(
    alloc: Global,
    scope: Scope,
    cut: &Cut,
    number: u32,
) -> Result<Option<Anchor>, AllocError>
    requires some { 1 ≤ scope.workers }
    requires own { IfSome scope.own (λ n. (1 ≤ n)
        × (n ≤ loops_of (tree_of scope.program.now).items)) }
    ensures { IfOk result (λ o. o ≡ good_own_anchor scope.entry cut.now.marks number) }
{
    let Some(own) = scope.own else {
        return Ok(None);
    };
    let value = loop_value(alloc, own)?;
    let (low, width) = span_of(alloc, scope.program, cut, number, own)?;
    good_anchor(alloc, scope, &value, low, in_blocks(scope.workers, width))
}

// The form of a loop's value.
fn loop_value(alloc: Global, number: u32) -> Result<Affine, AllocError>
    requires { 1 ≤ number }
    ensures { IfOk result (λ f. f ≡ value_of number) }
{
    let mut loops = Pairs::new(alloc);
    loops.push(number, 1)?;
    Ok(Affine::new(0, loops, Pairs::new(alloc)))
}

// The least value of a loop at a static phase and how many there are to the greatest: an interval
// leaves blocks of no place at its ends.
fn span_of(
    alloc: Global,
    program: &Program,
    cut: &Cut,
    phase: u32,
    number: u32,
) -> Result<(i128, u128), AllocError>
    requires one { 1 ≤ number }
    requires there { number ≤ loops_of (tree_of program.now).items }
    ensures { IfOk result (λ span. span
        ≡ span_of number (phase_ends (tree_of program.now) cut.now.marks (phase - 1))) }
{
    let anchor = Anchor {
        form: loop_value(alloc, number)?,
        dist: Dist::Block(0),
    };
    let Err(ends) = check_anchor(program, cut, phase, &anchor, 1) else {
        return Ok((0, 0));
    };
    match extent(ends.low, ends.high) {
        Some(width) => Ok((ends.low, width)),
        None => unreachable!(),
    }
}
