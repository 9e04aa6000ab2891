//! The candidates in front of each phase.

ghost use Rattle.std.specs.Prelude.{◌≡◌, ◌≤◌, ◌<◌, ◌^◌, ◌+◌, ◌++◌, IfOk, OnOk, length, map};
ghost use Rattle.nest_tree.specs.View.{tree_of};
ghost use Rattle.sync_plan.specs.declared.plan.Kind.TheVariants.{Producer};
ghost use Rattle.conflict_rules.specs.References.{phases_of};
ghost use Rattle.comm_system.specs.PhaseViews.{phase_seen};
ghost use Rattle.maker_candidates.specs.Candidates.{candidates_at, candidates_in};
ghost use Rattle.maker_candidates.specs.Sites.{IsNumbered};

use crate::producers::producers_at;
use crate::site::Site;
use comm_system::phase::Phase;
use nest_tree::{Listed, Program};
use owner_partition::Anchor;
use std::alloc::{AllocError, Global};
use sync_plan::{Kind, Plan};

// Producers with these anchors, behind the others.
fn push_producers(kinds: &mut Vec<Kind>, anchors: Vec<Anchor>) -> Result<(), AllocError>
    ensures { OnOk result (kinds.new.items ≡ kinds.old.items ++ map Producer anchors.items) }
{
    for anchor in anchors {
        kinds.push(Kind::Producer(anchor))?;
    }
    Ok(())
}

// The candidates in front of a phase, from the weakest on.
fn candidates_at(alloc: Global, site: Site, phases: &[Phase]) -> Result<Vec<Kind>, AllocError>
    requires { IsNumbered site }
    ensures { IfOk result (λ kinds. kinds.items
        ≡ candidates_at
        (tree_of site.entry.program.now) site.entry.plan.now.cut.marks site.entry.plan.now.workers
        site.entry.plan.now.anchors (map phase_seen phases.now) site.entry.number
        (phase_seen site.entry.phase.now)) }
{
    let producers = producers_at(alloc, site, phases)?;
    let mut kinds = Vec::new(alloc);
    kinds.push(Kind::Nothing)?;
    push_producers(&mut kinds, producers)?;
    kinds.push(Kind::Left)?;
    kinds.push(Kind::Right)?;
    kinds.push(Kind::Both)?;
    kinds.push(Kind::Barrier)?;
    Ok(kinds)
}

/// The candidates in front of each phase of a plan, from the weakest on. The phases are those of
/// the program under the plan's cut. The error is that memory ran out.
pub fn all_candidates(
    alloc: Global,
    program: &Program,
    plan: &Plan,
    phases: &[Phase],
) -> Result<Vec<Listed<Kind>>, AllocError>
    requires some { 1 ≤ plan.now.workers }
    requires phases { map phase_seen phases.now
        ≡ phases_of (tree_of program.now) plan.now.cut.marks }
    requires few { length phases.now < 2 ^ 20 }
    ensures { IfOk result (λ all. all.items ≡ candidates_in (tree_of program.now) plan.now) }
{
    let mut all = Vec::new(alloc);
    for (place, phase) in phases.iter().enumerate() {
        let site = Site {
            program,
            plan,
            number: place as u32 + 1,
            phase,
        };
        let kinds = candidates_at(alloc, site, phases)?;
        all.push(Listed::from_vec(kinds))?;
    }
    Ok(all)
}
