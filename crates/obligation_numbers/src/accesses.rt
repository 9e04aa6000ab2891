// Sums over the accesses of a piece of the text.

ghost use Rattle.std.specs.Prelude.{◌≡◌, ℕ, Bool, false, map, sum_by};
ghost use Rattle.std.specs.Io.Iter.{u64_saturate};
ghost use Rattle.std.specs.List.{flat_map};
ghost use Rattle.nest_tree.specs.declared.tree.Access.{Access};
ghost use Rattle.nest_tree.specs.Loads.{loads_among, loads_in};
ghost use Rattle.nest_tree.specs.View.{expression_of, expressions_from, printed_of, statement_of, statements_from};
ghost use Rattle.nest_walk.specs.Tables.{loaded_in_item};
ghost use Rattle.comm_system.specs.References.{variable_of};
ghost use Rattle.obligation_numbers.specs.Sums.{access_sum, access_sums, shown_sum, without};

use comm_system::own::privates_in;
use nest_tree::{Expr, Item, PrintItem};
use owner_partition::Cut;

// What an access weighs, by its variable and whether it stores.
pub(crate) trait AccessWeight {
    ghost weight: { Self → ℕ → Bool → ℕ };

    // Past 64 bits the greatest number.
    fn weigh(&self, variable: u32, stores: bool) -> u64
        ensures { result ≡ u64_saturate (weight self.now variable stores) };
}

// What the accesses of a statement weigh.
#[cycle(works)]
pub(crate) fn statement_weight<W: AccessWeight>(weight: &W, item: &Item) -> u64
    ensures { result ≡ u64_saturate (access_sum (W.weight weight.now) (statement_of item.now)) }
{
    match item {
        Item::Loop(nest) => statements_weight(weight, &nest.items),
        Item::Assign(target, value, _, _) => {
            let loads = expression_weight(weight, value);
            loads.saturating_add(weight.weigh(target.variable, true))
        }
        Item::Print(items, _) => printed_weight(weight, items),
        Item::Continue(_) => 0,
    }
}

// Those of these statements.
#[cycle(works)]
fn statements_weight<W: AccessWeight>(weight: &W, items: &[Item]) -> u64
    ensures { result
        ≡ u64_saturate (access_sums (W.weight weight.now) (statements_from items.now)) }
{
    let mut total = 0u64;
    for item in items {
        total = total.saturating_add(statement_weight(weight, item));
    }
    total
}

// What the items of a PRINT load.
fn printed_weight<W: AccessWeight>(weight: &W, items: &[PrintItem]) -> u64
    ensures { result ≡ u64_saturate (sum_by (λ l. W.weight weight.now (variable_of l) false)
        (flat_map loaded_in_item (map printed_of items.now))) }
{
    let mut total = 0u64;
    for item in items {
        total = total.saturating_add(item_weight(weight, item));
    }
    total
}

// What an item of a PRINT loads.
fn item_weight<W: AccessWeight>(weight: &W, item: &PrintItem) -> u64
    ensures { result ≡ u64_saturate (sum_by (λ l. W.weight weight.now (variable_of l) false)
        (loaded_in_item (printed_of item.now))) }
{
    match item {
        PrintItem::Value(e) => expression_weight(weight, e),
        PrintItem::Whole(variable) => weight.weigh(*variable, false),
        PrintItem::Text(_) => 0,
    }
}

// What an expression loads.
#[cycle(loads)]
fn expression_weight<W: AccessWeight>(weight: &W, e: &Expr) -> u64
    ensures { result ≡ u64_saturate (sum_by (λ (a : Access). W.weight weight.now a.variable false)
        (loads_in (expression_of e.now))) }
{
    match e {
        Expr::Number(_) | Expr::LoopValue(_) | Expr::Param(_) => 0,
        Expr::Load(access) => weight.weigh(access.variable, false),
        Expr::Neg(a) | Expr::Div(a, _) => expression_weight(weight, a),
        Expr::Add(a, b) | Expr::Sub(a, b) | Expr::Mul(a, b) => {
            expression_weight(weight, a).saturating_add(expression_weight(weight, b))
        }
        Expr::Min(arguments) => arguments_weight(weight, arguments),
        Expr::Max(arguments) => arguments_weight(weight, arguments),
    }
}

// What arguments load.
#[cycle(loads)]
fn arguments_weight<W: AccessWeight>(weight: &W, arguments: &[Expr]) -> u64
    ensures { result ≡ u64_saturate (sum_by (λ (a : Access). W.weight weight.now a.variable false)
        (loads_among (expressions_from arguments.now))) }
{
    let mut total = 0u64;
    for argument in arguments {
        total = total.saturating_add(expression_weight(weight, argument));
    }
    total
}

// What accesses weigh, but those of some scalars, which weigh nothing.
#[derive(Drop)]
struct Without<'x, W> {
    weight: &'x W,
    scalars: &'x [u32],
}

impl<W: AccessWeight> AccessWeight for Without<'_, W> {
    ghost weight = { λ x. without x.scalars.now (W.weight x.weight.now) };

    fn weigh(&self, variable: u32, stores: bool) -> u64 {
        if self.scalars.contains(&variable) {
            0
        } else {
            self.weight.weigh(variable, stores)
        }
    }
}

// What the accesses of a phase weigh that others see: of a private scalar one store.
pub(crate) fn shown_weight<W: AccessWeight>(weight: &W, cut: &Cut, item: &Item) -> u64
    ensures { result
        ≡ u64_saturate (shown_sum cut.now (W.weight weight.now) (statement_of item.now)) }
{
    let scalars = privates_in(cut, item);
    let mut total = statement_weight(&Without { weight, scalars }, item);
    for &scalar in scalars {
        total = total.saturating_add(weight.weigh(scalar, true));
    }
    total
}
