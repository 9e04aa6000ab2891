// The limits of a program: how far its forms reach, how much work there is, and how many cells.

ghost use Rattle.std.specs.Prelude.{◌≡◌, ◌+◌, ◌≤◌, ◌^◌, ◌++◌, [], ◌∷◌, IfOk, IsTrue, Some, None, if◌then◌else◌, length, map};
ghost use Rattle.std.specs.List.{flat_map, list_all};
ghost use Rattle.std.specs.Result.{result_err, result_ok};
ghost use Rattle.nest_tree.specs.Form.{is_given, is_small};
ghost use Rattle.nest_tree.specs.Given.{are_all_given, are_given, are_loads_given, is_all_given};
ghost use Rattle.nest_tree.specs.Intervals.{form_interval, head_interval};
ghost use Rattle.nest_tree.specs.Layout.{cell_count, cells_in};
ghost use Rattle.nest_tree.specs.Limits.{capped, first_limit, no_ends, wide_at, wide_end, wide_forms, wide_in, wide_loads, wide_of, work_in, work_of};
ghost use Rattle.nest_tree.specs.LimitText.{text_of_limit};
ghost use Rattle.nest_tree.specs.Loads.{guard_forms, loads_in, loads_among, loads_in_item, subscript_forms};
ghost use Rattle.nest_tree.specs.View.{declaration_of, expression_of, expressions_from, head_of, loop_of, printed_of, statement_of, statements_from, tree_of, tree_of_draft};
ghost use Rattle.nest_tree.specs.WellFormed.{IsWellFormed, is_good_declaration};

use crate::form::Affine;
use crate::layout::extent;
use crate::program::{Draft, Program};
use crate::tree::{Access, Expr, Guard, Item, Nest, Parameter, PrintItem, Variable};
use std::fmt;

/// A limit that a program passes.
#[derive(Clone, Copy, Debug, PartialEq, Eq)]
pub enum Limit {
    /// A form of the statement of this line, from 1, has an interval with this end, past plus or minus 2147483647.
    TooWide(u32, i128),
    /// The work estimate, past 2^40; past 2^64 it counts as 2^64.
    TooMuchWork(u128),
    /// The number of cells, past 1,048,576; past 2^64 it counts as 2^64.
    TooManyCells(u128),
}

/// One line without its end, as `REFUSED X1 LINE 3 END 2147483648`.
impl fmt::Display for Limit {
    ghost output = { λ limit. Some (text_of_limit limit) };

    fn fmt<W: fmt::Write>(&self, f: &mut fmt::Formatter<W>) -> fmt::Result {
        match self {
            Limit::TooWide(line, end) => write!(f, "REFUSED X1 LINE {line} END {end}"),
            Limit::TooMuchWork(total) => write!(f, "REFUSED X2 WORK {total}"),
            Limit::TooManyCells(total) => write!(f, "REFUSED X3 CELLS {total}"),
        }
    }
}

/// The most work that a program may have.
pub const MOST_WORK: u128 = 1 << 40;

/// The most cells that a program may have.
pub const MOST_CELLS: u128 = 1_048_576;

// The number as which all greater ones count.
const CAP: u128 = 1 << 64;

// No program has so many loops.
const MOST_STATEMENTS: usize = 400;

/// The first limit that the draft passes: of its forms in text order, the low end before the
/// high one; then that of the work; then that of the cells. It takes no memory.
pub(crate) fn draft_limits(draft: &Draft) -> Result<(), Limit>
    requires { IsWellFormed (tree_of_draft draft.now) }
    ensures { result_err result ≡ first_limit (tree_of_draft draft.now) }
{
    let mut ends = [(0, 0); MOST_STATEMENTS];
    check_draft(draft, &mut ends)
}

// The first limit that the draft passes, where no loop has an interval yet.
fn check_draft(draft: &Draft, ends: &mut [(i64, i64)]) -> Result<(), Limit>
    requires well_formed { IsWellFormed (tree_of_draft draft.now) }
    requires ends { ends.old ≡ no_ends }
    ensures { result_err result ≡ first_limit (tree_of_draft draft.now) }
{
    let work = statements_work(&draft.items, ends, &draft.params, 1)?;
    if work > MOST_WORK {
        return Err(Limit::TooMuchWork(work));
    }
    let cells = capped_cells(&draft.variables);
    if cells > MOST_CELLS {
        return Err(Limit::TooManyCells(cells));
    }
    Ok(())
}

impl Program {
    /// How many cells the program has; past 2^64 it counts as 2^64.
    pub fn cell_count(&self) -> u128
        ensures { result ≡ capped (cell_count (tree_of self.now)) }
    {
        capped_cells(&self.variables)
    }
}

// How many cells variables have; past 2^64 they count as 2^64.
fn capped_cells(variables: &[Variable]) -> u128
    requires { IsTrue (list_all is_good_declaration (map declaration_of variables.now)) }
    ensures { result ≡ capped (cells_in (map declaration_of variables.now)) }
{
    let mut cells = 0;
    for variable in variables {
        cells = (cells + variable.element_count()).min(CAP);
    }
    cells
}

// The interval of a form, or its first end past plus or minus 2147483647.
fn small_interval(
    form: &Affine,
    ends: &[(i64, i64)],
    constants: &[Parameter],
) -> Result<(i64, i64), i128>
    requires { IsTrue (is_given form.now (length ends.now) (length constants.now)) }
    ensures wide { result_err result ≡ wide_end (form_interval form.now ends.now
        (map (λ p. p.value) constants.now)) }
    ensures interval { IfOk result (λ i. i ≡ form_interval form.now ends.now
        (map (λ p. p.value) constants.now)) }
{
    let (low, high) = form.interval_among(ends, constants);
    Ok((small(low)?, small(high)?))
}

// The number, where it is within plus or minus 2147483647.
fn small(end: i128) -> Result<i64, i128>
    ensures small { IfOk result (λ z. z ≡ end) }
    ensures wide { result_err result ≡ (if is_small end then None else Some end) }
{
    if end.unsigned_abs() <= 2147483647 {
        Ok(end as i64)
    } else {
        Err(end)
    }
}

// The first wide end of these forms.
fn check_forms(forms: &[Affine], ends: &[(i64, i64)], constants: &[Parameter]) -> Result<(), i128>
    requires { IsTrue (are_given (length ends.now) (length constants.now) forms.now) }
    ensures { result_err result ≡ wide_forms (map (λ p. p.value) constants.now) ends.now forms.now }
{
    for form in forms {
        small_interval(form, ends, constants)?;
    }
    Ok(())
}

// The first wide end of what an expression loads.
#[cycle(loads)]
fn check_loads(e: &Expr, ends: &[(i64, i64)], constants: &[Parameter]) -> Result<(), i128>
    requires { IsTrue (are_loads_given (length ends.now) (length constants.now)
        (loads_in (expression_of e.now))) }
    ensures { result_err result ≡ wide_loads (map (λ p. p.value) constants.now) ends.now
        (loads_in (expression_of e.now)) }
{
    match e {
        Expr::Number(_) | Expr::LoopValue(_) | Expr::Param(_) => Ok(()),
        Expr::Load(access) => check_forms(access.subscripts.as_slice(), ends, constants),
        Expr::Neg(a) | Expr::Div(a, _) => check_loads(a, ends, constants),
        Expr::Add(a, b) | Expr::Sub(a, b) | Expr::Mul(a, b) => {
            check_loads(a, ends, constants)?;
            check_loads(b, ends, constants)
        }
        Expr::Min(arguments) => check_all_loads(arguments, ends, constants),
        Expr::Max(arguments) => check_all_loads(arguments, ends, constants),
    }
}

// The first wide end of what arguments load.
#[cycle(loads)]
fn check_all_loads(
    arguments: &[Expr],
    ends: &[(i64, i64)],
    constants: &[Parameter],
) -> Result<(), i128>
    requires { IsTrue (are_loads_given (length ends.now) (length constants.now)
        (loads_among (expressions_from arguments.now))) }
    ensures { result_err result ≡ wide_loads (map (λ p. p.value) constants.now) ends.now
        (loads_among (expressions_from arguments.now)) }
{
    for argument in arguments {
        check_loads(argument, ends, constants)?;
    }
    Ok(())
}

// The first wide end of a comparison's sides.
fn check_guard(
    guard: &Option<Guard>,
    ends: &[(i64, i64)],
    constants: &[Parameter],
) -> Result<(), i128>
    requires { IsTrue (are_given (length ends.now) (length constants.now) (guard_forms guard.now)) }
    ensures { result_err result ≡ wide_forms (map (λ p. p.value) constants.now) ends.now
        (guard_forms guard.now) }
{
    if let Some(guard) = guard {
        small_interval(&guard.left, ends, constants)?;
        small_interval(&guard.right, ends, constants)?;
    }
    Ok(())
}

// The first wide end of an assignment: of its comparison, of the element stored, of the loads.
fn check_assignment(
    target: &Access,
    value: &Expr,
    guard: &Option<Guard>,
    ends: &[(i64, i64)],
    constants: &[Parameter],
) -> Result<(), i128>
    requires { IsTrue (are_given (length ends.now) (length constants.now) (guard_forms guard.now
        ++ target.now.subscripts ++ subscript_forms (loads_in (expression_of value.now)))) }
    ensures { result_err result ≡ wide_forms (map (λ p. p.value) constants.now) ends.now
        (guard_forms guard.now ++ target.now.subscripts
        ++ subscript_forms (loads_in (expression_of value.now))) }
{
    check_guard(guard, ends, constants)?;
    check_forms(target.subscripts.as_slice(), ends, constants)?;
    check_loads(value, ends, constants)
}

// The first wide end of what the items of a PRINT load.
fn check_printed(
    items: &[PrintItem],
    ends: &[(i64, i64)],
    constants: &[Parameter],
) -> Result<(), i128>
    requires { IsTrue (are_loads_given (length ends.now) (length constants.now)
        (flat_map loads_in_item (map printed_of items.now))) }
    ensures { result_err result ≡ wide_loads (map (λ p. p.value) constants.now) ends.now
        (flat_map loads_in_item (map printed_of items.now)) }
{
    for item in items {
        check_item(item, ends, constants)?;
    }
    Ok(())
}

// The first wide end of what an item of a PRINT loads.
fn check_item(item: &PrintItem, ends: &[(i64, i64)], constants: &[Parameter]) -> Result<(), i128>
    requires { IsTrue (are_loads_given (length ends.now) (length constants.now)
        (loads_in_item (printed_of item.now))) }
    ensures { result_err result ≡ wide_loads (map (λ p. p.value) constants.now) ends.now
        (loads_in_item (printed_of item.now)) }
{
    match item {
        PrintItem::Value(e) => check_loads(e, ends, constants),
        PrintItem::Whole(_) | PrintItem::Text(_) => Ok(()),
    }
}

// The sum, where numbers past 2^64 count as it.
fn capped_sum(a: u128, b: u128) -> u128
    requires first { a ≤ 2 ^ 64 }
    requires second { b ≤ 2 ^ 64 }
    ensures { result ≡ capped (a + b) }
{
    (a + b).min(CAP)
}

// The first limit that statements of this width pass by a form, or their work.
#[cycle(work)]
fn statements_work(
    items: &[Item],
    ends: &mut [(i64, i64)],
    constants: &[Parameter],
    width: u128,
) -> Result<u128, Limit>
    requires given { IsTrue (are_all_given (length ends.old) (length constants.now)
        (statements_from items.now)) }
    requires width { width ≤ 2 ^ 64 }
    ensures wide { result_err result ≡ wide_of (map (λ p. p.value) constants.now) ends.old
        (statements_from items.now) }
    ensures work { IfOk result (λ w. w ≡ capped (work_of (map (λ p. p.value) constants.now) ends.old
        width (statements_from items.now))) }
    ensures kept { IfOk result (λ _. ends.new ≡ ends.old) }
{
    let mut work = 0;
    for item in items {
        work = capped_sum(work, item_work(item, ends, constants, width)?);
    }
    Ok(work)
}

// The first limit that a statement of this width passes by a form, or its work.
#[cycle(work)]
fn item_work(
    item: &Item,
    ends: &mut [(i64, i64)],
    constants: &[Parameter],
    width: u128,
) -> Result<u128, Limit>
    requires given { IsTrue (is_all_given (length ends.old) (length constants.now)
        (statement_of item.now)) }
    requires width { width ≤ 2 ^ 64 }
    ensures wide { result_err result ≡ wide_in (map (λ p. p.value) constants.now) ends.old
        (statement_of item.now) }
    ensures work { IfOk result (λ w. w ≡ capped (work_in (map (λ p. p.value) constants.now) ends.old
        width (statement_of item.now))) }
    ensures kept { IfOk result (λ _. ends.new ≡ ends.old) }
{
    match item {
        Item::Loop(nest) => nest_work(nest, ends, constants, width),
        Item::Assign(target, value, guard, line) => {
            on_line(
                *line,
                check_assignment(target, value, guard, ends, constants),
            )?;
            Ok(width)
        }
        Item::Print(items, line) => {
            on_line(*line, check_printed(items, ends, constants))?;
            Ok(width)
        }
        Item::Continue(_) => Ok(width),
    }
}

// The first limit that a loop of this width passes by a form, or its work.
#[cycle(work)]
fn nest_work(
    nest: &Nest,
    ends: &mut [(i64, i64)],
    constants: &[Parameter],
    width: u128,
) -> Result<u128, Limit>
    requires given { IsTrue (is_all_given (length ends.old) (length constants.now)
        (loop_of nest.now)) }
    requires width { width ≤ 2 ^ 64 }
    ensures wide { result_err result ≡ wide_in (map (λ p. p.value) constants.now) ends.old
        (loop_of nest.now) }
    ensures work { IfOk result (λ w. w ≡ capped (work_in (map (λ p. p.value) constants.now) ends.old
        width (loop_of nest.now))) }
    ensures kept { IfOk result (λ _. ends.new ≡ ends.old) }
{
    let interval = nest.interval(ends, constants)?;
    if interval.0 > interval.1 {
        return Ok(width);
    }
    let place = nest.number as usize - 1;
    let outside = ends[place];
    ends[place] = interval;
    let inside = (width * u128::from(extent(interval))).min(CAP);
    let body = statements_work(&nest.items, ends, constants, inside)?;
    ends[place] = outside;
    Ok(capped_sum(width, body))
}

impl Nest {
    /// The interval from the least to the greatest value of the loop, where the loops round it have
    /// these intervals, by number from 1; or the limit that its bounds pass.
    pub fn interval(
        &self,
        ends: &[(i64, i64)],
        constants: &[Parameter],
    ) -> Result<(i64, i64), Limit>
        requires { IsTrue (are_given (length ends.now) (length constants.now) ((head_of self.now).m1
            ∷ (head_of self.now).m2 ∷ [])) }
        ensures wide { result_err result ≡ wide_at (head_of self.now).line
            (wide_forms (map (λ p. p.value) constants.now) ends.now ((head_of self.now).m1
            ∷ (head_of self.now).m2 ∷ [])) }
        ensures interval { IfOk result (λ i. i ≡ head_interval (map (λ p. p.value) constants.now)
            ends.now (head_of self.now)) }
        ensures low { IfOk result (λ i. IsTrue (is_small i.0)) }
        ensures high { IfOk result (λ i. IsTrue (is_small i.1)) }
    {
        let first = on_line(self.line, small_interval(&self.m1, ends, constants))?;
        let last = on_line(self.line, small_interval(&self.m2, ends, constants))?;
        if self.step >= 0 {
            Ok((first.0, last.1))
        } else {
            Ok((last.0, first.1))
        }
    }
}

// A wide end as the limit that the statement of this line passes.
fn on_line<T>(line: u32, checked: Result<T, i128>) -> Result<T, Limit>
    ensures wide { result_err result ≡ wide_at line (result_err checked) }
    ensures fine { result_ok result ≡ result_ok checked }
{
    match checked {
        Ok(found) => Ok(found),
        Err(end) => Err(Limit::TooWide(line, end)),
    }
}
