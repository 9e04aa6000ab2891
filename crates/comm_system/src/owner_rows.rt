// The rows of owners.

ghost use Rattle.std.specs.Prelude.{◌≡◌, ◌+◌, ◌-◌, ◌*◌, ◌<◌, ◌≤◌, ◌^◌, ◌++◌, ◌-ℤ◌, [], ◌∷◌, IfOk, IsTrue, OnOk, length, map, neg_ℤ, pos};
ghost use Rattle.std.specs.List.{list_all};
ghost use Rattle.farkas_cert.specs.Combination.{is_narrow};
ghost use Rattle.nest_rows.specs.Constraints.{is_tame};
ghost use Rattle.nest_rows.specs.More.{HasMore};
ghost use Rattle.nest_rows.specs.Places.{terms_of};
ghost use Rattle.nest_rows.specs.Views.{heads_of};
ghost use Rattle.nest_rows.specs.Signs.{with_sign};
ghost use Rattle.nest_rows.specs.declared.constraint.Sign.TheVariants.{Minus, Plus};
ghost use Rattle.comm_system.specs.OwnerRows.{owner_has, owner_numbers, owner_unknowns as unknowns_of_owner, owners_have, owners_unknowns as unknowns_of_owners, owns};
ghost use Rattle.comm_system.specs.OwnerViews.{dealt_of, fits_owner, placed_seen};

use crate::rows::single;
use nest_rows::terms::push_form;
use nest_rows::{Around, Constraint, Sign};
use nest_systems::ConstraintSystem;
use nest_tree::Pairs;
use owner_partition::{Anchor, Dist};
use std::alloc::{AllocError, Global};

// An anchor at the loops of an instance, whose first value has this number.
#[derive(Clone, Copy)]
pub(crate) struct Placed<'b, 'a> {
    pub(crate) anchor: &'b Anchor,
    pub(crate) first: u32,
    pub(crate) around: &'b [Around<'a>],
}

/// How many unknowns an owner has: itself and, where places are dealt in turn, the round's number.
pub fn owner_unknowns(dist: Dist) -> u32
    ensures is { result ≡ unknowns_of_owner dist }
    ensures few { result ≤ 2 }
{
    match dist {
        Dist::Block(_) => 1,
        Dist::Cyclic => 2,
    }
}

// What is left of a block's last place, without this constant.
fn last_place(block: u32, constant: i64) -> i128
    ensures value { result ≡ pos block -ℤ pos 1 -ℤ constant }
    ensures narrow { IsTrue (is_narrow result) }
{
    i128::from(block) - 1 - i128::from(constant)
}

// The first place of a block, block * q, is at most the form's value.
fn block_begins(alloc: Global, q: u32, placed: Placed, block: u32) -> Result<Constraint, AllocError>
    requires room { placed.first + 2 * length placed.around.now < 2 ^ 32 }
    requires small { block ≤ 2147483647 }
    ensures is { IfOk result (λ c. c
        ≡ record {
          terms = (q, pos block)
              ∷ with_sign Minus
              (terms_of placed.entry.first
              (heads_of placed.entry.around.now) placed.entry.anchor.now.form);
          bound = placed.entry.anchor.now.form.constant;
        }) }
    ensures tame { IfOk result (λ c. IsTrue (is_tame c)) }
{
    let form = &placed.anchor.form;
    let mut terms = Pairs::new(alloc);
    terms.push(q, Sign::Plus.of(i64::from(block)))?;
    push_form(&mut terms, Sign::Minus, placed.first, placed.around, form)?;
    Ok(Constraint {
        terms,
        bound: Sign::Plus.of_wide(form.constant()),
    })
}

// The form's value is at most its last place, block * q + block - 1.
fn block_ends(alloc: Global, q: u32, placed: Placed, block: u32) -> Result<Constraint, AllocError>
    requires room { placed.first + 2 * length placed.around.now < 2 ^ 32 }
    requires small { block ≤ 2147483647 }
    ensures is { IfOk result (λ c. c
        ≡ record {
          terms = with_sign Plus
              (terms_of placed.entry.first
              (heads_of placed.entry.around.now) placed.entry.anchor.now.form)
              ++ (q, neg_ℤ (pos block))
              ∷ [];
          bound = pos block -ℤ pos 1 -ℤ placed.entry.anchor.now.form.constant;
        }) }
    ensures tame { IfOk result (λ c. IsTrue (is_tame c)) }
{
    let form = &placed.anchor.form;
    let mut terms = Pairs::new(alloc);
    push_form(&mut terms, Sign::Plus, placed.first, placed.around, form)?;
    terms.push(q, Sign::Minus.of(i64::from(block)))?;
    Ok(Constraint {
        terms,
        bound: last_place(block, form.constant()),
    })
}

// The form's value is that of a round, workers * round + q, where the next unknown is the round:
// the difference, with this sign, is at most 0.
fn dealt(
    alloc: Global,
    sign: Sign,
    q: u32,
    placed: Placed,
    workers: u32,
) -> Result<Constraint, AllocError>
    requires room { placed.first + 2 * length placed.around.now < 2 ^ 32 }
    requires unknown { q + 1 < 2 ^ 32 }
    requires small { workers ≤ 64 }
    ensures is { IfOk result (λ c. c ≡ dealt_of sign q workers (placed_seen placed.entry)) }
    ensures tame { IfOk result (λ c. IsTrue (is_tame c)) }
{
    let form = &placed.anchor.form;
    let back = sign.flipped();
    let mut terms = Pairs::new(alloc);
    push_form(&mut terms, sign, placed.first, placed.around, form)?;
    terms.push(q + 1, back.of(i64::from(workers)))?;
    terms.push(q, back.of(1))?;
    Ok(Constraint {
        terms,
        bound: back.of_wide(form.constant()),
    })
}

// The unknown q is the owner that an anchor names.
fn push_owns(
    alloc: Global,
    system: &mut ConstraintSystem,
    workers: u32,
    q: u32,
    placed: Placed,
) -> Result<(), AllocError>
    requires fits { IsTrue (fits_owner placed) }
    requires unknown { q + 1 < 2 ^ 32 }
    requires workers { workers ≤ 64 }
    ensures { OnOk result
        (HasMore (owns placed.entry.anchor.now.dist workers q
        (terms_of placed.entry.first
        (heads_of placed.entry.around.now) placed.entry.anchor.now.form)
        placed.entry.anchor.now.form.constant) system.old system.new) }
{
    match placed.anchor.dist {
        Dist::Block(block) => {
            system.push(block_begins(alloc, q, placed, block)?)?;
            system.push(block_ends(alloc, q, placed, block)?)
        }
        Dist::Cyclic => {
            system.push(dealt(alloc, Sign::Plus, q, placed, workers)?)?;
            system.push(dealt(alloc, Sign::Minus, q, placed, workers)?)
        }
    }
}

// The unknown q is the owner that an anchor names, and a processor.
fn push_owner(
    alloc: Global,
    system: &mut ConstraintSystem,
    workers: u32,
    q: u32,
    placed: Placed,
) -> Result<(), AllocError>
    requires fits { IsTrue (fits_owner placed) }
    requires unknown { q + 1 < 2 ^ 32 }
    requires workers { workers ≤ 64 }
    ensures { OnOk result
        (HasMore (owner_has workers q (placed_seen placed.entry)) system.old system.new) }
{
    push_owns(alloc, system, workers, q, placed)?;
    system.push(single(alloc, q, -1, 0)?)?;
    system.push(single(alloc, q, 1, i128::from(workers) - 1)?)
}

// Owners one behind another, from this unknown on. The answer has their unknowns.
pub(crate) fn push_owners(
    alloc: Global,
    system: &mut ConstraintSystem,
    workers: u32,
    first: u32,
    placed: &[Placed],
) -> Result<Vec<u32>, AllocError>
    requires fit { IsTrue (list_all fits_owner placed.now) }
    requires room { first + unknowns_of_owners (map placed_seen placed.now) < 2 ^ 32 - 1 }
    requires workers { workers ≤ 64 }
    ensures rows { OnOk result
        (HasMore (owners_have workers first (map placed_seen placed.now)) system.old system.new) }
    ensures numbers { IfOk result (λ numbers. numbers.items
        ≡ owner_numbers first (map placed_seen placed.now)) }
{
    let mut q = first;
    let mut numbers = Vec::new(alloc);
    for &one in placed {
        push_owner(alloc, system, workers, q, one)?;
        numbers.push(q)?;
        q += owner_unknowns(one.anchor.dist);
    }
    Ok(numbers)
}

// How many unknowns owners have.
pub(crate) fn owners_unknowns(placed: &[Placed]) -> u32
    requires { length placed.now < 2 ^ 30 }
    ensures unknowns { result ≡ unknowns_of_owners (map placed_seen placed.now) }
    ensures few { result ≤ 2 * length placed.now }
{
    let mut count = 0;
    for one in placed {
        count += owner_unknowns(one.anchor.dist);
    }
    count
}
