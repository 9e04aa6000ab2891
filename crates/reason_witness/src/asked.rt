// Of what reasons are looked for: what the maker's name, or all that a given plan raises.

ghost use Rattle.std.specs.Prelude.{◌≡◌, ◌≤◌, ◌<◌, ◌^◌, ◌++◌, IfOk, IsTrue, OnOk, Some, length, map, slice_get};
ghost use Rattle.std.specs.List.{list_all};
ghost use Rattle.nest_tree.specs.View.{tree_of};
ghost use Rattle.nest_tree.specs.WellFormed.{loops_of};
ghost use Rattle.sync_plan.specs.Fit.{IsFit};
ghost use Rattle.comm_system.specs.PhaseViews.{phase_seen};
ghost use Rattle.comm_system.specs.References.{phases_of};
ghost use Rattle.comm_system.specs.Signatures.{has_places_in};
ghost use Rattle.maker_candidates.specs.Candidates.{candidates_in};
ghost use Rattle.plan_maker.specs.Bars.{all_attempts, attempts_of, open_loop, open_loops};
ghost use Rattle.plan_maker.specs.declared.reasons.PhaseReason.{PhaseReason as HeldReason};
ghost use Rattle.reason_witness.specs.Asked.{candidate_question, questions_in, serial_question};
ghost use Rattle.reason_witness.specs.Reasons.{given_questions, kind_question, loop_question, made_questions, phase_question, try_question, wanted_of, weaker_questions};

use crate::candidates::weaker_kinds;
use crate::found::Wanted;
use crate::sought::{Asked, Candidate, Serial};
use comm_system::phase::Phase;
use maker_candidates::all_candidates;
use nest_tree::{Listed, Program};
use owner_partition::{Mark, mark_in};
use plan_maker::reasons::{Bar, LoopReason, PhaseReason, Reasons};
use plan_maker::tries::tries_at;
use std::alloc::{AllocError, Global};
use sync_plan::{Kind, Plan};

impl Asked {
    /// What the reasons of a made plan name.
    pub(crate) fn of_made(alloc: Global, reasons: &Reasons) -> Result<Asked, AllocError>
        requires { IsTrue
            (list_all (λ (r : HeldReason). has_places_in r.kind) reasons.now.phases.items) }
        ensures { IfOk result (λ asked. questions_in asked ≡ made_questions reasons.now) }
    {
        let loops = made_loops(alloc, reasons.loops.as_slice())?;
        let phases = made_phases(alloc, reasons.phases.as_slice())?;
        Ok(Asked { loops, phases })
    }

    /// Of a plan that is given all tries of the loops that aren't dealt out, and all weaker kinds.
    pub(crate) fn of_given(
        alloc: Global,
        program: &Program,
        plan: &Plan,
        phases: &[Phase],
    ) -> Result<Asked, AllocError>
        requires fits { IsFit (tree_of program.now) plan.now }
        requires phases { map phase_seen phases.now
            ≡ phases_of (tree_of program.now) plan.now.cut.marks }
        requires few { length phases.now < 2 ^ 20 }
        ensures { IfOk result (λ asked. questions_in asked
            ≡ given_questions (tree_of program.now) plan.now) }
    {
        let loops = given_loops(alloc, program, plan)?;
        let phases = given_phases(alloc, program, plan, phases)?;
        Ok(Asked { loops, phases })
    }
}

// What is looked for where a loop isn't dealt out for this.
fn wanted_of(bar: Bar) -> Wanted
    ensures { result ≡ wanted_of bar }
{
    match bar {
        Bar::Print => Wanted::First,
        Bar::Meeting(cause) => Wanted::Named(cause),
    }
}

// What the maker's reasons of loops name.
fn made_loops(alloc: Global, reasons: &[LoopReason]) -> Result<Vec<Serial>, AllocError>
    ensures { IfOk result (λ loops. map serial_question loops.items
        ≡ map loop_question reasons.now) }
{
    let mut loops = Vec::new(alloc);
    for reason in reasons {
        loops.push(Serial {
            number: reason.number,
            tried: reason.tried,
            wanted: wanted_of(reason.bar),
        })?;
    }
    Ok(loops)
}

// What the maker's reasons of phases name.
fn made_phases(alloc: Global, reasons: &[PhaseReason]) -> Result<Vec<Candidate>, AllocError>
    requires { IsTrue (list_all (λ (r : HeldReason). has_places_in r.kind) reasons.now) }
    ensures { IfOk result (λ phases. map candidate_question phases.items
        ≡ map phase_question reasons.now) }
{
    let mut phases = Vec::new(alloc);
    for reason in reasons {
        phases.push(Candidate {
            phase: reason.phase,
            kind: reason.kind.copy(alloc)?,
            wanted: Wanted::Named(reason.cause),
        })?;
    }
    Ok(phases)
}

// Of a plan that is given all tries of the loops that aren't dealt out.
fn given_loops(alloc: Global, program: &Program, plan: &Plan) -> Result<Vec<Serial>, AllocError>
    requires marks { length plan.now.cut.marks ≡ loops_of (tree_of program.now).items }
    ensures { IfOk result (λ loops. map serial_question loops.items
        ≡ map try_question (all_attempts (tree_of program.now) (open_loops 1 plan.now.cut.marks))) }
{
    let marks = plan.cut.as_slice();
    let mut loops = Vec::new(alloc);
    for place in 0..program.loop_count() {
        let mark = mark_in(marks, place as usize);
        push_open(alloc, program, mark, place + 1, &mut loops)?;
    }
    Ok(loops)
}

// All tries of a loop with this mark, by its number from 1, behind others, if it isn't dealt out.
fn push_open(
    alloc: Global,
    program: &Program,
    mark: Mark,
    number: u32,
    loops: &mut Vec<Serial>,
) -> Result<(), AllocError>
    requires some { 1 ≤ number }
    requires there { number ≤ loops_of (tree_of program.now).items }
    ensures { OnOk result (map serial_question loops.new.items ≡ map serial_question loops.old.items
        ++ map try_question (all_attempts (tree_of program.now) (open_loop number mark))) }
{
    match mark {
        Mark::Outer | Mark::Single => push_tries(alloc, program, number, loops),
        Mark::Doall | Mark::Sum | Mark::Inner => Ok(()),
    }
}

// All tries of a loop, by its number from 1, behind others.
fn push_tries(
    alloc: Global,
    program: &Program,
    number: u32,
    loops: &mut Vec<Serial>,
) -> Result<(), AllocError>
    requires some { 1 ≤ number }
    requires there { number ≤ loops_of (tree_of program.now).items }
    ensures { OnOk result (map serial_question loops.new.items ≡ map serial_question loops.old.items
        ++ map try_question (attempts_of (tree_of program.now) number)) }
{
    let tries = tries_at(alloc, program, number)?;
    for &tried in tries.as_slice() {
        loops.push(Serial {
            number,
            tried,
            wanted: Wanted::First,
        })?;
    }
    Ok(())
}

// Of a plan that is given all candidates that are weaker than the wait in front of a phase.
fn given_phases(
    alloc: Global,
    program: &Program,
    plan: &Plan,
    phases: &[Phase],
) -> Result<Vec<Candidate>, AllocError>
    requires fits { IsFit (tree_of program.now) plan.now }
    requires phases { map phase_seen phases.now
        ≡ phases_of (tree_of program.now) plan.now.cut.marks }
    requires few { length phases.now < 2 ^ 20 }
    ensures { IfOk result (λ found. map candidate_question found.items
        ≡ weaker_questions 1 (candidates_in (tree_of program.now) plan.now) plan.now.kinds) }
{
    let candidates = all_candidates(alloc, program, plan, phases)?;
    let candidates = candidates.as_slice();
    let kinds = plan.kinds.as_slice();
    let mut found = Vec::new(alloc);
    for place in 0..candidates.len().min(kinds.len()) {
        let kind = kind_in(kinds, place);
        let weaker = weaker_kinds(alloc, kind, candidates_at(candidates, place))?;
        push_weaker(place as u32 + 1, weaker, &mut found)?;
    }
    Ok(found)
}

// The kind at this place, from 0.
fn kind_in(kinds: &[Kind], place: usize) -> &Kind
    requires { place < length kinds.now }
    ensures { slice_get kinds.now place ≡ Some result.now }
{
    &kinds[place]
}

// The candidates at this place, from 0.
fn candidates_at(candidates: &[Listed<Kind>], place: usize) -> &[Kind]
    requires { place < length candidates.now }
    ensures { slice_get candidates.now place ≡ Some result.now }
{
    candidates[place].as_slice()
}

// These kinds in front of the static phase with this number, from 1, behind others.
fn push_weaker(phase: u32, kinds: Vec<Kind>, found: &mut Vec<Candidate>) -> Result<(), AllocError>
    requires { IsTrue (list_all has_places_in kinds.items) }
    ensures { OnOk result (map candidate_question found.new.items
        ≡ map candidate_question found.old.items ++ map (kind_question phase) kinds.items) }
{
    for kind in kinds {
        found.push(Candidate {
            phase,
            kind,
            wanted: Wanted::First,
        })?;
    }
    Ok(())
}
