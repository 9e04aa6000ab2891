// How many obligations a plan has.

ghost use Rattle.std.specs.Prelude.{◌≡◌, None, length};
ghost use Rattle.std.specs.Io.Iter.{u64_saturate};
ghost use Rattle.nest_tree.specs.View.{tree_of};
ghost use Rattle.sync_plan.specs.Shape.{wrong_field};
ghost use Rattle.comm_system.specs.Obligations.{obligations_of};

use crate::phases::phases_weight;
use crate::scene::Scene;
use crate::slots::{Paths, Trips};
use nest_tree::Program;
use sync_plan::Plan;

/// How many obligations a plan has; 2^64 - 1 where there are more. It takes no memory.
pub fn obligation_count(program: &Program, plan: &Plan) -> u64
    requires shape { wrong_field (tree_of program.now) plan.now ≡ None }
    ensures { result ≡ u64_saturate (length (obligations_of (tree_of program.now) plan.now)) }
{
    let trips = phases_weight(&Trips { plan }, program, &plan.cut);
    let slots = phases_weight(&Scene { program, plan }, program, &plan.cut);
    let paths = phases_weight(&Paths { plan }, program, &plan.cut);
    trips.saturating_add(slots).saturating_add(paths)
}
