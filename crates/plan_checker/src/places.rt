// Where the anchors of a plan lie, and who prints.

ghost use Rattle.std.specs.Prelude.{◌≡◌, ◌<◌, ◌^◌, ◌&&◌, ◌||◌, not, suc, ◌∷◌, IsTrue, List, None, length};
ghost use Rattle.std.specs.Option.{option_or};
ghost use Rattle.std.specs.Result.{result_err};
ghost use Rattle.nest_tree.specs.View.{statement_of, tree_of};
ghost use Rattle.nest_tree.specs.WellFormed.{loops_of};
ghost use Rattle.owner_partition.specs.Placement.{unplaced};
ghost use Rattle.sync_plan.specs.Fit.{has_print, is_dealt, is_zero_form, kind_anchors, misplaced_print, numbered_anchors, placed_anchors};
ghost use Rattle.sync_plan.specs.Shape.{static_phases, wrong_field};
ghost use Rattle.sync_plan.specs.declared.plan.Kind.{Kind};
ghost use Rattle.plan_checker.specs.Named.{are_given_anchors, are_given_kinds, is_given_kind};

use nest_tree::{Affine, Item, Program};
use owner_partition::{Anchor, Cut, Placement, StaticPhase, check_anchor};
use sync_plan::{Kind, Plan};

/// Whether each block anchor of a plan of a fitting shape keeps within its blocks, the phases'
/// first and then the kinds'; else the first that doesn't.
pub(crate) fn check_places(program: &Program, plan: &Plan) -> Result<(), Placement>
    requires shape { wrong_field (tree_of program.now) plan.now ≡ None }
    requires anchors { length plan.now.anchors < 2 ^ 32 }
    requires kinds { length plan.now.kinds < 2 ^ 32 }
    ensures { result_err result ≡ unplaced (tree_of program.now) plan.now.cut.marks plan.now.workers
        (placed_anchors plan.now) }
{
    check_phases(program, &plan.cut, plan.anchors.as_slice(), plan.workers)?;
    check_kinds(program, &plan.cut, plan.kinds.as_slice(), plan.workers)
}

fn check_phases(
    program: &Program,
    cut: &Cut,
    anchors: &[Anchor],
    workers: u32,
) -> Result<(), Placement>
    requires few { length anchors.now < 2 ^ 32 }
    requires given { IsTrue (are_given_anchors (loops_of (tree_of program.now).items)
        (length (tree_of program.now).params) anchors.now) }
    ensures { result_err result ≡ unplaced (tree_of program.now) cut.now.marks workers
        (numbered_anchors 1 anchors.now) }
{
    for (place, anchor) in anchors.iter().enumerate() {
        check_anchor(program, cut, place as u32 + 1, anchor, workers)?;
    }
    Ok(())
}

fn check_kinds(program: &Program, cut: &Cut, kinds: &[Kind], workers: u32) -> Result<(), Placement>
    requires few { length kinds.now < 2 ^ 32 }
    requires given { IsTrue (are_given_kinds (loops_of (tree_of program.now).items)
        (length (tree_of program.now).params) kinds.now) }
    ensures { result_err result ≡ unplaced (tree_of program.now) cut.now.marks workers
        (kind_anchors 1 kinds.now) }
{
    for (place, kind) in kinds.iter().enumerate() {
        check_kind(program, cut, place as u32 + 1, kind, workers)?;
    }
    Ok(())
}

// Whether the anchor of a kind in front of this static phase passes, if it has one.
fn check_kind(
    program: &Program,
    cut: &Cut,
    number: u32,
    kind: &Kind,
    workers: u32,
) -> Result<(), Placement>
    requires given { IsTrue (is_given_kind (loops_of (tree_of program.now).items)
        (length (tree_of program.now).params) kind.now) }
    ensures { (rest : List Kind)
        → option_or (result_err result) (unplaced (tree_of program.now) cut.now.marks workers
        (kind_anchors (suc number) rest)) ≡ unplaced (tree_of program.now) cut.now.marks workers
        (kind_anchors number (kind.now ∷ rest)) }
{
    match kind.anchor() {
        Some(anchor) => check_anchor(program, cut, number, anchor, workers),
        None => Ok(()),
    }
}

/// The first static phase, from 1, with a PRINT that is a Doall loop or has another form than the
/// constant 0.
pub(crate) fn misplaced_print(program: &Program, cut: &Cut, anchors: &[Anchor]) -> Option<u32>
    requires few { length anchors.now < 2 ^ 32 }
    ensures { result
        ≡ misplaced_print 1 cut.now.marks
        (static_phases (tree_of program.now) cut.now.marks) anchors.now }
{
    for (place, anchor) in anchors.iter().enumerate() {
        let number = place as u32 + 1;
        let Some(phase) = StaticPhase::at(program, cut, number) else {
            return None;
        };
        if is_misplaced(cut, phase.item, &anchor.form) {
            return Some(number);
        }
    }
    None
}

// Whether a PRINT stands in a static phase that is dealt or has another form than 0.
fn is_misplaced(cut: &Cut, item: &Item, form: &Affine) -> bool
    ensures { result ≡ (has_print (statement_of item.now)
        && (is_dealt cut.now.marks (statement_of item.now) || not (is_zero_form form.now))) }
{
    item.has_print() && (cut.is_dealt(item) || !is_zero_form(form))
}

// Whether a form is the constant 0.
fn is_zero_form(form: &Affine) -> bool
    ensures { result ≡ is_zero_form form.now }
{
    form.constant() == 0 && form.loops().is_empty() && form.params().is_empty()
}
