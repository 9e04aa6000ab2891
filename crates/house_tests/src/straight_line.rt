// K = 20, K = K*2 + 2, PRINT *, 'K', K, and plans of two processors of which the first does everything.

ghost use Rattle.std.specs.Prelude.{◌≡◌, IfOk};
ghost use Rattle.nest_tree.specs.View.{expression_of, tree_of, tree_of_draft};
ghost use Rattle.std.specs.Prelude.{[]};
ghost use Rattle.house_tests.specs.StraightLine.{doubled, first_owns, line, plan_with};

use nest_tree::{
    Access, Affine, Draft, Expr, Item, Listed, Pairs, PrintItem, Program, Spread, Variable,
};
use owner_partition::{Anchor, Cut, Dist};
use std::alloc::{AllocError, Global};
use sync_plan::{Conditions, Kind, Plan, Version};

// The scalar K.
fn k(alloc: Global) -> Access
    ensures { result ≡ record { variable = 1; subscripts = [] } }
{
    Access {
        variable: 1,
        subscripts: Listed::new(alloc),
    }
}

// K*2 + 2.
fn more(alloc: Global) -> Result<Expr, AllocError>
    ensures { IfOk result (λ e. expression_of e ≡ doubled) }
{
    let twice = Expr::Mul(
        Box::new(alloc, Expr::Load(k(alloc)))?,
        Box::new(alloc, Expr::Number(2))?,
    );
    Ok(Expr::Add(Box::new(alloc, twice)?, Box::new(alloc, Expr::Number(2))?))
}

/// The program.
pub fn line(alloc: Global) -> Result<Program, AllocError>
    ensures { IfOk result (λ p. tree_of p ≡ line) }
{
    match line_draft(alloc)?.limited() {
        Ok(program) => Ok(program),
        Err(_) => unreachable!(),
    }
}

fn line_draft(alloc: Global) -> Result<Draft, AllocError>
    ensures { IfOk result (λ d. tree_of_draft d ≡ line) }
{
    let shown = vec![in alloc;
        PrintItem::Text(vec![in alloc; b'K']?),
        PrintItem::Value(Expr::Load(k(alloc))),
    ]?;
    let scalar = Variable {
        name: vec![in alloc; b'K']?,
        bounds: Vec::new(alloc),
        axis: 0,
        spread: Spread::Block,
    };
    let items = vec![in alloc;
        Item::Assign(k(alloc), Expr::Number(20), None, 1),
        Item::Assign(k(alloc), more(alloc)?, None, 1),
        Item::Print(shown, 1),
    ]?;
    Ok(Draft {
        items,
        params: Vec::new(alloc),
        variables: vec![in alloc; scalar]?,
    })
}

fn first_owns(alloc: Global) -> Anchor
    ensures { result ≡ first_owns }
{
    Anchor {
        form: Affine::new(0, Pairs::new(alloc), Pairs::new(alloc)),
        dist: Dist::Cyclic,
    }
}

/// The plan with these kinds in front of its phases.
pub fn plan_with(alloc: Global, kinds: Vec<Kind>) -> Result<Plan, AllocError>
    ensures { IfOk result (λ p. p ≡ plan_with kinds.items) }
{
    let anchors = vec![in alloc; first_owns(alloc), first_owns(alloc), first_owns(alloc)]?;
    Ok(Plan {
        version: Version::Two,
        conditions: Conditions::Values,
        workers: 2,
        cut: Cut::plain(alloc, Vec::new(alloc))?,
        anchors: Listed::from_vec(anchors),
        kinds: Listed::from_vec(kinds),
        certificates: Listed::from_vec(Vec::new(alloc)),
    })
}
