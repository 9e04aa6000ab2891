// What is told of a plan: why its loops aren't dealt out, and why no weaker wait stands in it.

ghost use Rattle.std.specs.Prelude.{◌≡◌, ◌≤◌, ◌++◌, ◌∷◌, [], IfOk, List, None, OnOk, map};
ghost use Rattle.std.specs.List.{AllZip};
ghost use Rattle.nest_tree.specs.View.{tree_of};
ghost use Rattle.sync_plan.specs.Fit.{IsFit};
ghost use Rattle.sync_plan.specs.Shape.{wrong_field};
ghost use Rattle.sync_plan.specs.declared.plan.Plan.{Plan as HeldPlan};
ghost use Rattle.comm_system.specs.Obligations.{obligations_of};
ghost use Rattle.plan_checker.specs.Accepted.{IsAccepted};
ghost use Rattle.plan_maker.specs.Bars.{loop_prints};
ghost use Rattle.reason_witness.specs.Asked.{candidate_question, questions_in, serial_question};
ghost use Rattle.reason_witness.specs.Findings.{IsFoundIn};
ghost use Rattle.reason_witness.specs.Plans.{AreSlotsOf, alone_plan};
ghost use Rattle.reason_witness.specs.Reasons.{AreAnswers, AreReasons, IsAnswer, IsMadeAccount, IsMadePlan, IsRefusedFor, IsWhySerial, IsWhySilent, Question, given_questions, refusal_question, why_of};
ghost use Rattle.reason_witness.specs.declared.found.Wanted.TheVariants.{Number};

use crate::found::{Found, Planned, Wanted};
use crate::sought::{Asked, Candidate, Serial};
use crate::weaker::{Ground, kinds_with};
use comm_system::Obligation;
use comm_system::phases::phases;
use comm_system::slot_list::slots;
use maker_marks::nests::{have_print, nest_of};
use nest_tree::Program;
use plan_checker::{PlanRefusal, check_fit};
use plan_maker::tries::Tried;
use plan_maker::{anchors_of, cut_of_try, make};
use std::alloc::{AllocError, Global};
use sync_plan::{Kind, Plan, all_barrier};

/// What a reason is for.
#[derive(Drop)]
pub enum About {
    /// That the loop with this number, from 1, isn't dealt out by this try.
    Loop(u32, Tried),
    /// That this kind doesn't stand in front of the static phase with this number, from 1.
    Weaker(u32, Kind),
    /// That the plan is refused for the obligation with this number, from 1.
    Refused(u64),
}

/// What the reason is.
#[derive(Drop)]
pub enum Why {
    /// A PRINT stands in the loop.
    Print,
    /// This obligation, with what is found of it.
    Found(Found),
    /// None: each obligation that is looked for has a certificate.
    Certified,
    /// None is known: the plan that has the obligations doesn't fit, for this first reason.
    Unfit(PlanRefusal),
}

/// Why a loop isn't dealt out, a weaker kind isn't there, or a plan is refused.
#[derive(Drop)]
pub struct Reason {
    pub about: About,
    pub wanted: Wanted,
    pub why: Why,
}

/// A plan with its reasons: those of loops, then those of phases, in order.
#[derive(Drop)]
pub struct Account {
    pub plan: Plan,
    pub reasons: Vec<Reason>,
}

fn why_of(found: Option<Found>) -> Why
    ensures { result ≡ why_of found }
{
    match found {
        Some(found) => Why::Found(found),
        None => Why::Certified,
    }
}

// Whether a PRINT stands in the loop with this number, from 1.
fn prints(program: &Program, number: u32) -> bool
    ensures { result ≡ loop_prints (tree_of program.now) number }
{
    if number == 0 || number > program.loop_count() {
        return false;
    }
    have_print(&nest_of(program, number).items)
}

// The plan in which a loop alone is dealt out by a try, for one processor. The loop is numbered from 1.
fn plan_of_try(
    alloc: Global,
    program: &Program,
    number: u32,
    tried: Tried,
) -> Result<Plan, AllocError>
    ensures { IfOk result (λ plan. plan ≡ alone_plan (tree_of program.now) number tried) }
{
    let cut = cut_of_try(alloc, program, number, tried)?;
    let anchors = anchors_of(alloc, program, &cut, 1)?;
    all_barrier(alloc, cut, anchors, 1, Vec::new(alloc))
}

// Why a loop without PRINT isn't dealt out, by the plan in which it alone is.
fn why_silent(
    alloc: Global,
    program: &Program,
    plan: &Plan,
    wanted: &Wanted,
) -> Result<Why, AllocError>
    ensures { IfOk result (IsWhySilent (tree_of program.now) plan.now wanted.now) }
{
    if let Err(refusal) = check_fit(program, plan) {
        return Ok(Why::Unfit(refusal));
    }
    let planned = Planned {
        program,
        plan,
        known: &[],
        first_pair: 0,
        is_whole: false,
    };
    Ok(why_of(planned.found(alloc, wanted)?))
}

// Why a loop isn't dealt out by a try.
fn why_serial(alloc: Global, program: &Program, serial: Serial) -> Result<Why, AllocError>
    ensures { IfOk result
        (IsWhySerial (tree_of program.now) serial.number serial.tried serial.wanted) }
{
    if prints(program, serial.number) {
        return Ok(Why::Print);
    }
    let plan = plan_of_try(alloc, program, serial.number, serial.tried)?;
    why_silent(alloc, program, &plan, &serial.wanted)
}

// The reason why a loop isn't dealt out by a try.
fn loop_reason(alloc: Global, program: &Program, serial: Serial) -> Result<Reason, AllocError>
    ensures { (plan : HeldPlan)
        → IfOk result (IsAnswer (tree_of program.now) plan (serial_question serial)) }
{
    let why = why_serial(alloc, program, serial)?;
    Ok(Reason {
        about: About::Loop(serial.number, serial.tried),
        wanted: serial.wanted,
        why,
    })
}

// Whether an obligation is of the lines, the variable and the level of one that is looked for.
fn is_beside(wanted: &Wanted, obligation: &Obligation) -> bool {
    match wanted {
        Wanted::Named(cause) => {
            obligation.lines == cause.lines
                && obligation.variable == cause.variable
                && obligation.level == cause.level
        }
        Wanted::First | Wanted::Number(_) => false,
    }
}

// The reasons of a phase, where they stand last.
fn last_of(reasons: &[Reason], phase: u32) -> &[Reason] {
    for place in 0..reasons.len() {
        if matches!(&reasons[place].about, About::Weaker(number, _) if *number == phase) {
            return &reasons[place..];
        }
    }
    &[]
}

// The pair of accesses from which on one may be in the way of a wait, by other reasons of its phase:
// those before the pair that is in the way of no wait at all are refuted. Nothing rests on it.
fn first_pair(reasons: &[Reason], wanted: &Wanted) -> u64 {
    for reason in reasons {
        if let (About::Weaker(_, Kind::Nothing), Why::Found(found)) = (&reason.about, &reason.why) {
            if is_beside(wanted, &found.obligation) {
                return found.pair;
            }
        }
    }
    0
}

impl Ground<'_, '_, '_> {
    // Why a kind doesn't stand in front of a static phase.
    fn weaker_reason(&self, alloc: Global, candidate: &Candidate) -> Result<Reason, AllocError>
        requires slots { AreSlotsOf
            (tree_of self.now.program.now) self.now.plan.now self.now.phases.now
            self.now.slots.now }
        requires accepted { IsAccepted (tree_of self.now.program.now) self.now.plan.now }
        ensures { IfOk result (IsAnswer (tree_of self.now.program.now) self.now.plan.now
            (candidate_question candidate.now)) }
    {
        let own = self.plan.kinds.as_slice();
        let kinds = kinds_with(alloc, own, candidate.phase, &candidate.kind)?;
        let found = self.found_under(alloc, kinds.as_slice(), &candidate.wanted)?;
        Ok(Reason {
            about: About::Weaker(candidate.phase, candidate.kind.copy(alloc)?),
            wanted: candidate.wanted,
            why: why_of(found),
        })
    }

    // Why loops aren't dealt out, behind other reasons.
    fn push_loops(
        &self,
        alloc: Global,
        loops: &[Serial],
        reasons: &mut Vec<Reason>,
    ) -> Result<(), AllocError>
        ensures { (qs : List Question)
            → AllZip
            (IsAnswer (tree_of self.now.program.now) self.now.plan.now) qs reasons.old.items
            → OnOk result (AllZip (IsAnswer (tree_of self.now.program.now) self.now.plan.now) (qs
            ++ map serial_question loops.now) reasons.new.items) }
    {
        for serial in loops {
            let reason = loop_reason(alloc, self.program, *serial)?;
            reasons.push(reason)?;
        }
        Ok(())
    }

    // Why weaker kinds don't stand in front of phases, behind other reasons.
    fn push_phases(
        &self,
        alloc: Global,
        phases: &[Candidate],
        reasons: &mut Vec<Reason>,
    ) -> Result<(), AllocError>
        requires slots { AreSlotsOf
            (tree_of self.now.program.now) self.now.plan.now self.now.phases.now
            self.now.slots.now }
        requires accepted { IsAccepted (tree_of self.now.program.now) self.now.plan.now }
        ensures { (qs : List Question)
            → AllZip
            (IsAnswer (tree_of self.now.program.now) self.now.plan.now) qs reasons.old.items
            → OnOk result (AllZip (IsAnswer (tree_of self.now.program.now) self.now.plan.now) (qs
            ++ map candidate_question phases.now) reasons.new.items) }
    {
        for candidate in phases {
            let known = last_of(reasons.as_slice(), candidate.phase);
            let ground = Ground {
                program: self.program,
                plan: self.plan,
                phases: self.phases,
                slots: self.slots,
                known,
                first_pair: first_pair(known, &candidate.wanted),
                is_whole: false,
            };
            let reason = ground.weaker_reason(alloc, candidate)?;
            reasons.push(reason)?;
        }
        Ok(())
    }
}

// The reasons of a plan, as far as they are asked for.
fn reasons_of(
    alloc: Global,
    program: &Program,
    plan: &Plan,
    asked: &Asked,
) -> Result<Vec<Reason>, AllocError>
    requires accepted { IsAccepted (tree_of program.now) plan.now }
    ensures { IfOk result (λ reasons. AllZip (IsAnswer (tree_of program.now) plan.now)
        (questions_in asked.now) reasons.items) }
{
    let all_phases = phases(alloc, program, &plan.cut)?;
    let all_slots = slots(alloc, all_phases.as_slice())?;
    let ground = Ground {
        program,
        plan,
        phases: all_phases.as_slice(),
        slots: all_slots.as_slice(),
        known: &[],
        first_pair: 0,
        is_whole: false,
    };
    let mut reasons = Vec::new(alloc);
    ground.push_loops(alloc, asked.loops.as_slice(), &mut reasons)?;
    ground.push_phases(alloc, asked.phases.as_slice(), &mut reasons)?;
    Ok(reasons)
}

/// What is told of the plan that is made for 1 to 64 workers: one true reason for each of the maker's,
/// in order. An error says that memory ran out.
pub fn made_account(alloc: Global, program: &Program, workers: u32) -> Result<Account, AllocError>
    requires some { 1 ≤ workers }
    requires few { workers ≤ 64 }
    ensures account { IfOk result (IsMadeAccount (tree_of program.now) workers) }
    ensures plan { IfOk result (λ a. IsMadePlan (tree_of program.now) workers a.plan) }
    ensures reasons { IfOk result (AreReasons (tree_of program.now)) }
{
    let (plan, made) = make(alloc, program, workers)?;
    let asked = Asked::of_made(alloc, &made)?;
    let reasons = reasons_of(alloc, program, &plan, &asked)?;
    Ok(Account { plan, reasons })
}

/// What is told of a plan that is given and accepted: one true reason for each try of each loop that
/// is Outer or Single, and for each weaker candidate in front of each phase, in order. An error says
/// that memory ran out.
pub fn given_account(alloc: Global, program: &Program, plan: Plan) -> Result<Account, AllocError>
    requires accepted { IsAccepted (tree_of program.now) plan }
    ensures plan { IfOk result (λ a. a.plan ≡ plan) }
    ensures told { IfOk result (λ a. AreAnswers (tree_of program.now) a
        (given_questions (tree_of program.now) a.plan)) }
    ensures reasons { IfOk result (AreReasons (tree_of program.now)) }
{
    let all_phases = phases(alloc, program, &plan.cut)?;
    let asked = Asked::of_given(alloc, program, &plan, all_phases.as_slice())?;
    let reasons = reasons_of(alloc, program, &plan, &asked)?;
    Ok(Account { plan, reasons })
}

/// What is told of a plan that is given and refused for the obligation with a number, from 1: one
/// reason, which has that obligation. An error says that memory ran out.
pub fn refused_account(
    alloc: Global,
    program: &Program,
    plan: Plan,
    number: u64,
) -> Result<Account, AllocError>
    requires fits { IsFit (tree_of program.now) plan }
    requires refused { IsRefusedFor (tree_of program.now) plan number }
    ensures plan { IfOk result (λ a. a.plan ≡ plan) }
    ensures told { IfOk result (λ a. AreAnswers (tree_of program.now) a (refusal_question number
        ∷ [])) }
    ensures reasons { IfOk result (AreReasons (tree_of program.now)) }
{
    let found = found_numbered(alloc, program, &plan, number)?;
    let mut reasons = Vec::new(alloc);
    reasons.push(Reason {
        about: About::Refused(number),
        wanted: Wanted::Number(number),
        why: Why::Found(found),
    })?;
    Ok(Account { plan, reasons })
}

// The obligation for which a plan is refused, with what is found of it.
fn found_numbered(
    alloc: Global,
    program: &Program,
    plan: &Plan,
    number: u64,
) -> Result<Found, AllocError>
    requires shape { wrong_field (tree_of program.now) plan.now ≡ None }
    requires refused { IsRefusedFor (tree_of program.now) plan.now number }
    ensures { IfOk result (IsFoundIn (obligations_of (tree_of program.now) plan.now)
        (Number number)) }
{
    let planned = Planned {
        program,
        plan,
        known: &[],
        first_pair: 0,
        is_whole: true,
    };
    match planned.found(alloc, &Wanted::Number(number))? {
        Some(found) => Ok(found),
        None => unreachable!(),
    }
}
