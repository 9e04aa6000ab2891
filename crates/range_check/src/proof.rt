// Whether certificates keep a subscript within its bounds.

ghost use Rattle.std.specs.Prelude.{◌≡◌, ◌⊎◌, ◌-◌, ◌<◌, ◌≤◌, ◌^◌, IfOk, IfNone, IfSome, IsTrue, length, pos, slice_index_or, true};
ghost use Rattle.std.specs.List.{list_all};
ghost use Rattle.farkas_cert.specs.Good.{IsGood};
ghost use Rattle.farkas_cert.specs.Inequalities.{Inequalities};
ghost use Rattle.presolve.specs.Presolution.{IsPresolved};
ghost use Rattle.nest_tree.specs.Form.{is_small};
ghost use Rattle.nest_tree.specs.Layout.{bounds_of};
ghost use Rattle.nest_tree.specs.Tree.{Head};
ghost use Rattle.nest_tree.specs.View.{tree_of};
ghost use Rattle.nest_tree.specs.WellFormed.{is_good_dimension};
ghost use Rattle.nest_walk.specs.Places.{IsThere};
ghost use Rattle.nest_rows.specs.Nested.{Nested as NestedWork};
ghost use Rattle.nest_rows.specs.Views.{IsView, heads_of};
ghost use Rattle.range_check.specs.RangeSystems.{AreProof, IsKeptAs, above, below, side_system};
ghost use Rattle.range_check.specs.Sites.{IsSite, Site, site_of, sites};

use crate::accesses::accesses_in;
use crate::effort::Effort;
use crate::systems::{elimination_order, high_limit, low_limit, side_system, unknown_count};
use farkas_cert::Certificate;
use fm_elim::NoMemory;
use nest_rows::{Nested, Sign, nested_works};
use nest_tree::{Access, Program};
use presolve::Presolved;
use std::alloc::Global;

// The bounds of a dimension, by its place from 0.
fn bounds_at(program: &Program, access: &Access, place: usize) -> (i64, i64)
    requires there { IsThere (tree_of program.now) access.now }
    requires place { place < length (bounds_of (tree_of program.now) access.now.variable) }
    ensures bounds { result
        ≡ slice_index_or (bounds_of (tree_of program.now) access.now.variable) place
        (pos 0, pos 0) }
    ensures good { IsTrue (is_good_dimension result) }
{
    program.variables[access.variable as usize - 1].bounds[place]
}

// A certificate that refutes the system that is left inside so many loops, told of the whole one.
fn left_proof(
    alloc: Global,
    left: &Presolved,
    loops: usize,
    effort: &mut Effort,
) -> Result<Option<Certificate>, NoMemory>
    requires { left.now.system.vars < 2 ^ 32 - 3 }
    ensures good { (whole : Inequalities) → IsPresolved whole left.now
        → IfOk result (λ o. IfSome o (IsGood whole)) }
    ensures kept { effort.old.whole ≡ true → (whole : Inequalities) → IsPresolved whole left.now
        → IfOk result (λ o. IfNone o (IsKeptAs whole loops)) }
    ensures same { effort.new.whole ≡ effort.old.whole }
{
    let system = left.system();
    let order = elimination_order(alloc, system.vars(), loops)?;
    match effort.refute(alloc, system, order.as_slice())? {
        Some(certificate) => Ok(Some(left.postsolve(alloc, certificate)?)),
        None => Ok(None),
    }
}

// A certificate that an access's subscript, with a sign, is never at most a number.
fn side_proof(
    alloc: Global,
    program: &Program,
    nested: &Nested,
    access: &Access,
    side: (Sign, usize, i64),
    effort: &mut Effort,
) -> Result<Option<Certificate>, NoMemory>
    requires seen { (n : NestedWork) × IsView n nested.now }
    requires steps { IsTrue (list_all (λ (h : Head). is_small h.step)
        (heads_of nested.now.around.items)) }
    requires there { side.1 < length access.now.subscripts }
    ensures good { (n : NestedWork) → IsView n nested.now
        → IfOk result
        (λ o. IfSome o
        (IsGood (side_system (tree_of program.now) (site_of n access.now) side.0 side.1 side.2))) }
    ensures kept { effort.old.whole ≡ true → (n : NestedWork) → IsView n nested.now
        → IfOk result
        (λ o. IfNone o
        (IsKeptAs (side_system (tree_of program.now) (site_of n access.now) side.0 side.1 side.2)
        (length (site_of n access.now).around))) }
    ensures same { effort.new.whole ≡ effort.old.whole }
{
    let around = nested.around.as_slice();
    let Some(vars) = unknown_count(program, around) else {
        return Err(NoMemory);
    };
    let system = side_system(alloc, program, nested, access, side, vars)?;
    let left = system.presolved(alloc, &[])?;
    left_proof(alloc, &left, around.len(), effort)
}

// The two certificates of an access's subscript in a dimension, from 1.
pub(crate) fn dimension_proof(
    alloc: Global,
    program: &Program,
    nested: &Nested,
    access: &Access,
    dimension: u32,
    effort: &mut Effort,
) -> Result<Option<(Certificate, Certificate)>, NoMemory>
    requires seen { (n : NestedWork) × IsView n nested.now }
    requires steps { IsTrue (list_all (λ (h : Head). is_small h.step)
        (heads_of nested.now.around.items)) }
    requires there { IsThere (tree_of program.now) access.now }
    requires low { 1 ≤ dimension }
    requires high { dimension ≤ length (bounds_of (tree_of program.now) access.now.variable) }
    ensures good { (n : NestedWork) → IsView n nested.now
        → IfOk result
        (λ o. IfSome o (AreProof (tree_of program.now) (site_of n access.now) dimension)) }
    ensures kept { effort.old.whole ≡ true → (n : NestedWork) → IsView n nested.now
        → IfOk result
        (λ o. IfNone o (IsKeptAs (below (tree_of program.now) (site_of n access.now) dimension)
        (length (site_of n access.now).around)
        ⊎ IsKeptAs (above (tree_of program.now) (site_of n access.now) dimension)
        (length (site_of n access.now).around))) }
{
    let place = dimension as usize - 1;
    let bounds = bounds_at(program, access, place);
    let side = (Sign::Plus, place, low_limit(bounds));
    let Some(low) = side_proof(alloc, program, nested, access, side, effort)? else {
        return Ok(None);
    };
    let side = (Sign::Minus, place, high_limit(bounds));
    let Some(high) = side_proof(alloc, program, nested, access, side, effort)? else {
        return Ok(None);
    };
    Ok(Some((low, high)))
}

/// Two certificates that show that the subscript of an access is never below the lower bound of a
/// dimension, and never above the upper one; None where elimination keeps one of the two systems.
///
/// The accesses of the program to scalars and elements are numbered from 1 in text order, of each
/// statement its loads and then its store. The dimension, from 1, is one of the access's. An error
/// says that memory ran out, and nothing of the subscript.
pub fn range_proof(
    alloc: Global,
    program: &Program,
    access: u32,
    dimension: u32,
) -> Result<Option<(Certificate, Certificate)>, NoMemory>
    requires number { 1 ≤ access }
    requires access { access ≤ length (sites (tree_of program.now)) }
    requires dimension { (s : Site) → IsSite (tree_of program.now) access s → (1 ≤ dimension)
        × (dimension ≤ length (bounds_of (tree_of program.now) s.access.variable)) }
    ensures good { (s : Site) → IsSite (tree_of program.now) access s
        → IfOk result (λ o. IfSome o (AreProof (tree_of program.now) s dimension)) }
    ensures kept { (s : Site) → IsSite (tree_of program.now) access s
        → IfOk result
        (λ o. IfNone o (IsKeptAs (below (tree_of program.now) s dimension) (length s.around)
        ⊎ IsKeptAs (above (tree_of program.now) s dimension) (length s.around))) }
{
    let mut before = access as usize - 1;
    let works = nested_works(alloc, program)?;
    for nested in works.iter() {
        let found = accesses_in(alloc, nested.item)?;
        if before < found.len() {
            let access = found[before].access;
            let mut effort = Effort::whole(alloc);
            return dimension_proof(alloc, program, nested, access, dimension, &mut effort);
        }
        before -= found.len();
    }
    unreachable!()
}
