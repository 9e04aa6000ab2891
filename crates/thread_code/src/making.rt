// The tree of a program under a plan.

ghost use Rattle.std.specs.Prelude.{◌≡◌, ◌+◌, ◌+ℤ◌, ◌*ℤ◌, ◌++◌, ◌≤◌, ◌<◌, ◌^◌, pos, unsigned_abs, IfOk, OnOk};
ghost use Rattle.std.specs.Int.{int_rem_euclid};
ghost use Rattle.std.specs.Option.{option_copied};
ghost use Rattle.nest_tree.specs.View.{head_of, statement_of, statements_from, tree_of};
ghost use Rattle.nest_model.specs.Visits.{stops_in, stops_of};
ghost use Rattle.owner_partition.specs.Cuts.{privates_of};
ghost use Rattle.owner_partition.specs.Marks.{enters_outer};
ghost use Rattle.thread_code.specs.Closed.{AreTurnings};
ghost use Rattle.thread_code.specs.Code.{code_in, codes_in, codes_of, finding_by, phase_at, plus_times, reduced, reduced_pairs, share_by, sums_in, times_pairs, without};
ghost use Rattle.thread_code.specs.Tables.{table_of};
ghost use Rattle.thread_code.specs.View.{code_view, codes_view, finding_view, form_view, share_view};

use crate::code::{Code, OwnTrips, Part, Place, ThreadCode, Trips};
use crate::turnings::Turnings;
use nest_tree::{Affine, Item, Nest, Pairs, Program};
use own_scalars::sum_scalars;
use owner_partition::{Anchor, Dist, is_closed_at};
use std::alloc::{AllocError, Global};
use sync_plan::Plan;

/// What each processor does of a program under a plan: the defined tree, with turnings that are right.
/// The error is that memory ran out.
pub fn code_of<'p>(
    alloc: Global,
    program: &'p Program,
    plan: &Plan,
) -> Result<ThreadCode<'p>, AllocError>
    requires some { 1 ≤ plan.now.workers }
    requires few { plan.now.workers ≤ 64 }
    ensures turnings { IfOk result (λ c. AreTurnings plan.now.workers (table_of c.turnings)) }
    ensures tree { IfOk result (λ c. codes_view c.codes.items
        ≡ codes_of (table_of c.turnings) (tree_of program.now) plan.now) }
{
    let turnings = Turnings::new(alloc, plan.workers)?;
    let maker = Maker {
        alloc,
        plan,
        turnings: &turnings,
    };
    let (codes, _) = maker.codes(&program.items, 1)?;
    Ok(ThreadCode { turnings, codes })
}

// What the tree is made of.
#[derive(Clone, Copy)]
struct Maker<'a> {
    alloc: Global,
    plan: &'a Plan,
    turnings: &'a Turnings,
}

impl Maker<'_> {
    // The codes of statements, of which the first phase has this number, and the number of the first
    // phase behind them.
    #[cycle(codes)]
    fn codes<'p>(&self, items: &'p [Item], first: u32) -> Result<(Vec<Code<'p>>, u32), AllocError>
        requires some { 1 ≤ self.now.plan.now.workers }
        ensures codes { first + stops_of (enters_outer self.now.plan.now.cut.marks)
            (statements_from items.now) < 2 ^ 32
            → IfOk result (λ r. codes_view r.0.items
            ≡ codes_in (table_of self.now.turnings.now) self.now.plan.now
            (statements_from items.now) first) }
        ensures behind { first + stops_of (enters_outer self.now.plan.now.cut.marks)
            (statements_from items.now) < 2 ^ 32
            → IfOk result (λ r. r.1 ≡ first + stops_of (enters_outer self.now.plan.now.cut.marks)
            (statements_from items.now)) }
    {
        let mut codes = Vec::new(self.alloc);
        let mut place = first;
        for item in items {
            let (code, behind) = self.code(item, place)?;
            codes.push(code)?;
            place = behind;
        }
        Ok((codes, place))
    }

    #[cycle(codes)]
    fn code<'p>(&self, item: &'p Item, place: u32) -> Result<(Code<'p>, u32), AllocError>
        requires some { 1 ≤ self.now.plan.now.workers }
        ensures code { place + stops_in (enters_outer self.now.plan.now.cut.marks)
            (statement_of item.now) < 2 ^ 32
            → IfOk result (λ r. code_view r.0
            ≡ code_in (table_of self.now.turnings.now) self.now.plan.now
            (statement_of item.now) place) }
        ensures behind { place + stops_in (enters_outer self.now.plan.now.cut.marks)
            (statement_of item.now) < 2 ^ 32
            → IfOk result (λ r. r.1 ≡ place + stops_in (enters_outer self.now.plan.now.cut.marks)
            (statement_of item.now)) }
    {
        match item {
            Item::Loop(nest) => {
                if is_closed_at(self.plan.cut.closed(), nest.number) {
                    return Ok((self.phase(item, place)?, place.saturating_add(1)));
                }
                let (inside, behind) = self.codes(&nest.items, place)?;
                Ok((Code::Each(nest, inside), behind))
            }
            Item::Assign(..) | Item::Print(..) => {
                Ok((self.phase(item, place)?, place.saturating_add(1)))
            }
            Item::Continue(_) => Ok((Code::Nothing, place)),
        }
    }

    // The phase with this number, from 1.
    fn phase<'p>(&self, item: &'p Item, place: u32) -> Result<Code<'p>, AllocError>
        requires some { 1 ≤ self.now.plan.now.workers }
        ensures { IfOk result (λ c. code_view c
            ≡ phase_at (table_of self.now.turnings.now) self.now.plan.now
            (statement_of item.now) place) }
    {
        let kind = match self.plan.kind(place) {
            Some(kind) => Some(kind.copy(self.alloc)?),
            None => None,
        };
        let part = self.part(self.plan.anchor(place), item)?;
        Ok(Code::Phase(kind, part))
    }

    // A processor's part of a phase with this anchor, if it has one.
    fn part<'p>(&self, anchor: Option<&Anchor>, item: &'p Item) -> Result<Part<'p>, AllocError>
        requires some { 1 ≤ self.now.plan.now.workers }
        ensures { IfOk result (λ part. share_view part
            ≡ share_by (table_of self.now.turnings.now) self.now.plan.now
            (option_copied anchor.entry) (statement_of item.now)) }
    {
        let Some(anchor) = anchor else {
            return Ok(Part::Nothing);
        };
        match item {
            Item::Loop(nest) => {
                let trips = self.trips(anchor, nest)?;
                let privates = self.privates(nest)?;
                let sums = self.sums(nest)?;
                Ok(Part::Trips(OwnTrips {
                    anchor: anchor.copy(self.alloc)?,
                    trips,
                    nest,
                    privates,
                    sums,
                }))
            }
            Item::Assign(..) | Item::Print(..) => Ok(Part::Work(anchor.copy(self.alloc)?, item)),
            Item::Continue(_) => Ok(Part::Nothing),
        }
    }

    // The scalars of which each processor has a cell of its own in a loop.
    fn privates(&self, nest: &Nest) -> Result<Vec<u32>, AllocError>
        ensures { IfOk result (λ scalars. scalars.items
            ≡ privates_of self.now.plan.now.cut.privates nest.now.number) }
    {
        self.plan.cut.privates_of(nest.number).to_vec(self.alloc)
    }

    // The scalars that each processor sums up in a loop by itself.
    fn sums(&self, nest: &Nest) -> Result<Vec<u32>, AllocError>
        ensures { IfOk result (λ sums. sums.items ≡ sums_in self.now.plan.now.cut (head_of nest.now)
            (statements_from nest.now.items.items)) }
    {
        if self.plan.cut.mark(nest.number).is_sum() {
            if let Some(sums) = sum_scalars(nest) {
                return sums.as_slice().to_vec(self.alloc);
            }
        }
        Ok(Vec::new(self.alloc))
    }

    // How a processor finds its own trips of a loop.
    fn trips(&self, anchor: &Anchor, nest: &Nest) -> Result<Trips, AllocError>
        requires some { 1 ≤ self.now.plan.now.workers }
        ensures { IfOk result (λ trips. finding_view trips
            ≡ finding_by (table_of self.now.turnings.now) self.now.plan.now.workers anchor.now
            (head_of nest.now)) }
    {
        let rise = anchor.coefficient(nest.number);
        if rise == 0 {
            return Ok(Trips::All(anchor.copy(self.alloc)?));
        }
        match anchor.dist {
            Dist::Block(length) => {
                let rest = rest(self.alloc, &anchor.form, nest.number)?;
                Ok(Trips::Block(length, rest, rise))
            }
            Dist::Cyclic => {
                let turning = self.turnings.at(self.remainder(times(rise, nest.step)));
                Ok(Trips::Turn(self.start(&anchor.form, rise, nest)?, turning))
            }
        }
    }

    // Where the places of a loop's trips begin: the form without the loop, and so many times the
    // loop's first value, each number by its remainder.
    fn start(&self, form: &Affine, rise: i64, nest: &Nest) -> Result<Place, AllocError>
        requires some { 1 ≤ self.now.plan.now.workers }
        ensures { IfOk result (λ place. form_view place ≡ reduced self.now.plan.now.workers
            (plus_times (without nest.now.number form.now) rise nest.now.m1)) }
    {
        let rest = rest(self.alloc, form, nest.number)?;
        let loops = self.start_pairs(rest.loops.as_slice(), nest.m1.loops(), rise)?;
        let params = self.start_pairs(rest.params.as_slice(), nest.m1.params(), rise)?;
        let constant = self.remainder(with_product(rest.constant, rise, nest.m1.constant()));
        Ok(Place {
            constant,
            loops,
            params,
        })
    }

    // Pairs, and a factor times others, by their remainders.
    fn start_pairs(
        &self,
        own: &[(u32, i64)],
        first: &[(u32, i64)],
        factor: i64,
    ) -> Result<Pairs, AllocError>
        requires some { 1 ≤ self.now.plan.now.workers }
        ensures { IfOk result (λ pairs. pairs ≡ reduced_pairs self.now.plan.now.workers (own.now
            ++ times_pairs factor first.now)) }
    {
        let mut pairs = Pairs::new(self.alloc);
        self.push_remainders(own, 1, &mut pairs)?;
        self.push_remainders(first, factor, &mut pairs)?;
        Ok(pairs)
    }

    // Pairs times a number, by their remainders, behind those that are there.
    fn push_remainders(
        &self,
        pairs: &[(u32, i64)],
        factor: i64,
        found: &mut Pairs,
    ) -> Result<(), AllocError>
        requires some { 1 ≤ self.now.plan.now.workers }
        ensures { OnOk result (found.new ≡ found.old ++ reduced_pairs self.now.plan.now.workers
            (times_pairs factor pairs.now)) }
    {
        for &(number, coefficient) in pairs {
            found.push(number, self.remainder(times(factor, coefficient)))?;
        }
        Ok(())
    }

    // The remainder by the number of processors, from 0 on.
    fn remainder(&self, value: i128) -> i64
        requires some { 1 ≤ self.now.plan.now.workers }
        ensures { result ≡ int_rem_euclid value (pos self.now.plan.now.workers) }
    {
        value.rem_euclid(i128::from(self.plan.workers)) as i64
    }
}

// A form without a loop.
fn rest(alloc: Global, form: &Affine, number: u32) -> Result<Place, AllocError>
    ensures { IfOk result (λ place. form_view place ≡ without number form.now) }
{
    let mut loops = Pairs::new(alloc);
    for &(named, coefficient) in form.loops() {
        if named != number {
            loops.push(named, coefficient)?;
        }
    }
    Ok(Place {
        constant: form.constant(),
        loops,
        params: Pairs::from_slice(alloc, form.params())?,
    })
}

// A product.
fn times(a: i64, b: i64) -> i128
    ensures product { result ≡ a *ℤ b }
    ensures near { unsigned_abs result ≤ 2 ^ 126 }
{
    i128::from(a) * i128::from(b)
}

// A number and a product.
fn with_product(start: i64, a: i64, b: i64) -> i128
    ensures { result ≡ start +ℤ (a *ℤ b) }
{
    i128::from(start) + times(a, b)
}
