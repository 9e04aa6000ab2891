// The parts of a machine, and what its calls do with them.

ghost use Rattle.std.specs.Prelude.{◌≡◌, ◌<◌, ℕ, IfOk, fold, length};
ghost use Rattle.nest_tree.specs.View.{tree_of};
ghost use Rattle.nest_model.specs.Ranges.{IsInRange};
ghost use Rattle.sync_plan.specs.Fit.{IsFit};
ghost use Rattle.spmd_machine.specs.Processors.{AreFresh};

use crate::answer::StepAnswer;
use crate::processor::{Processor, Spot};
use flat_code::{CodeTable, value_of_code};
use instance_runs::{LoadPlace, longest_output, most_loads, open_printing};
use nest_tree::{Item, PrintItem, Program};
use nest_walk::{CellTable, Stop};
use own_cells::{OWN_PLACES, is_sum_place};
use seq_meaning::{Given, Output};
use spmd_model::Style;
use std::alloc::{AllocError, Global};
use sync_plan::Plan;
use turns::{Next, Turns};

// The most statements that a program has, and so the most loops.
const MOST_STATEMENTS: usize = 400;

// The parts of the pure machine of a program under a plan that fits it, where barriers are passed in
// a style.
#[derive(Drop)]
pub(crate) struct Parts<'a> {
    pub(crate) program: &'a Program,
    pub(crate) plan: &'a Plan,
    pub(crate) style: Style,
    // The cells of all accesses, and the codes of all that is assigned.
    pub(crate) table: CellTable,
    pub(crate) codes: CodeTable,
    // The values of the named constants, and those of loops, by number.
    pub(crate) params: Vec<i64>,
    pub(crate) loops: Vec<i64>,
    // What the code of a store fills.
    pub(crate) code_registers: Vec<i64>,
    pub(crate) processors: Vec<Processor<'a>>,
    // The cells that all share.
    pub(crate) memory: Vec<i64>,
    pub(crate) output: Output,
}

impl<'a> Parts<'a> {
    ghost use Rattle.std.specs.Prelude.{Option, Vec, nat_lt};
    ghost use Rattle.std.specs.Global.{Global};
    ghost use Rattle.nest_tree.specs.declared.tree.Access.{Access};
    ghost use Rattle.nest_tree.specs.declared.tree.Expr.{Expr};
    ghost use Rattle.nest_tree.specs.declared.tree.Guard.{Guard};
    ghost use Rattle.nest_tree.specs.declared.tree.PrintItem.{PrintItem};
    ghost use Rattle.std.specs.Prelude.{All, None, Some, true, false};
    ghost use Rattle.spmd_model.specs.Fair.{acts_to_go, can_step};
    ghost use Rattle.spmd_model.specs.Quiet.{first_turn, past_quiet, quiet_next, turned};
    ghost use Rattle.spmd_model.specs.Runs.{IsEnded};
    ghost use Rattle.spmd_machine.specs.Promises.{one_round, rounds};
    ghost use Rattle.spmd_machine.specs.Machines.{ComesNext, GoesQuietly, HasDone, IsMachine, IsSameMachine, IsSettled, IsSpot, LoadsNext, StepsTo, StoresNext, model_of, plan_in, shared_in, shown, step_answer, style_in, tree_in};

    // The first state: nothing is done but what each processor begins with on its own cells, and
    // all is 0 or empty. What a run can need is reserved.
    pub(crate) fn new(
        alloc: Global,
        program: &'a Program,
        plan: &'a Plan,
        style: Style,
    ) -> Result<Self, AllocError>
        requires ranges { IsInRange (tree_of program.now) }
        requires fits { IsFit (tree_of program.now) plan.now }
        ensures ready { IfOk result (λ m. IsMachine m) }
        ensures first { IfOk result (λ m. shown m ≡ first_turn (model_of m) (shared_in m)) }
        ensures settled { IfOk result (λ m. (p : ℕ) → p < plan.now.workers → IsSettled m p) }
        ensures program { IfOk result (λ m. tree_in m ≡ tree_of program.now) }
        ensures plan { IfOk result (λ m. plan_in m ≡ plan.now) }
        ensures style { IfOk result (λ m. style_in m ≡ style) }
    {
        let table = CellTable::new(alloc, program)?;
        let codes = CodeTable::new(alloc, program)?;
        let mut params = Vec::with_capacity(alloc, program.params.len())?;
        for parameter in &program.params {
            params.push(parameter.value)?;
        }
        let loaded = most_loads(program, &table).ok_or(AllocError)?;
        let most = codes.registers() as usize;
        let mut closed = vec![in alloc; true; MOST_STATEMENTS]?;
        open_printing(&program.items, &mut closed);
        let room = longest_output(program, &closed).ok_or(AllocError)?;
        let mut machine = Parts {
            program,
            plan,
            style,
            table,
            codes,
            params,
            loops: vec![in alloc; 0; MOST_STATEMENTS]?,
            code_registers: vec![in alloc; 0; most]?,
            processors: processors_of(alloc, program, plan, style, loaded.max(1))?,
            memory: vec![in alloc; 0; program.cell_count() as usize]?,
            output: Output::with_room(alloc, room)?,
        };
        machine.settle_all();
        Ok(machine)
    }

    // Each processor does what it begins with on its own cells.
    fn settle_all(&mut self)
        requires ready { IsMachine self.old }
        ensures ready { IsMachine self.new }
        ensures state { shown self.new ≡ fold (past_quiet (model_of self.old) (shared_in self.old))
            (shown self.old) (one_round (model_of self.old)) }
        ensures same { IsSameMachine self.old self.new }
    {
        for p in 0..self.plan.workers {
            self.settle(p as usize);
        }
    }

    // One step of processor `p`: it does its next act, where it has one and it is possible, and then
    // the acts on its own cells that come next.
    pub(crate) fn step(&mut self, p: u32) -> StepAnswer
        requires ready { IsMachine self.old }
        requires worker { p < (plan_in self.old).workers }
        ensures ready { IsMachine self.new }
        ensures step { shown self.new ≡ turned (model_of self.old) (shared_in self.old)
            (shown self.old) p }
        ensures answer { result ≡ step_answer (model_of self.old) (shown self.old) p }
        ensures same { IsSameMachine self.old self.new }
    {
        let answer = self.act(p as usize);
        self.settle(p as usize);
        answer
    }

    // Past the acts on its own cells of a processor that come next, which only a plan with own scalars
    // has.
    #[inline(always)]
    fn settle(&mut self, p: usize)
        requires ready { IsMachine self.old }
        requires worker { p < length self.old.processors.items }
        ensures ready { IsMachine self.new }
        ensures state { shown self.new ≡ past_quiet (model_of self.old) (shared_in self.old)
            (shown self.old) p }
        ensures same { IsSameMachine self.old self.new }
    {
        if self.processors[p].turns.has_own() {
            self.settle_own(p);
        }
    }

    // The same, whatever the plan.
    fn settle_own(&mut self, p: usize)
        requires ready { IsMachine self.old }
        requires worker { p < length self.old.processors.items }
        ensures ready { IsMachine self.new }
        ensures state { shown self.new ≡ past_quiet (model_of self.old) (shared_in self.old)
            (shown self.old) p }
        ensures same { IsSameMachine self.old self.new }
    {
        while self.act_quietly(p) {}
    }

    // The act that comes next of a processor, where it is on its own cells; whether it is.
    fn act_quietly(&mut self, p: usize) -> bool
        requires ready { IsMachine self.old }
        requires worker { p < length self.old.processors.items }
        ensures ready { IsMachine self.new }
        ensures quiet { result
            ≡ nat_lt 0 (quiet_next (model_of self.old) (shared_in self.old) (shown self.old) p) }
        ensures acts { GoesQuietly self.old self.new p result }
        ensures same { IsSameMachine self.old self.new }
    {
        match self.peek(p) {
            Next::Work(stop) => self.work_quietly(p, stop),
            Next::Close(place) => self.close_quietly(p, place),
            Next::Post(_) | Next::Await { .. } => false,
            Next::Signal(_) | Next::AwaitSignal { .. } => false,
            Next::End => false,
        }
    }

    // The same at an instance.
    fn work_quietly(&mut self, p: usize, stop: Stop<'a>) -> bool
        requires ready { IsMachine self.old }
        requires worker { p < length self.old.processors.items }
        requires next { ComesNext self.old p (Next.Work stop) }
        ensures ready { IsMachine self.new }
        ensures quiet { result
            ≡ nat_lt 0 (quiet_next (model_of self.old) (shared_in self.old) (shown self.old) p) }
        ensures acts { GoesQuietly self.old self.new p result }
        ensures same { IsSameMachine self.old self.new }
    {
        let processor = &self.processors[p];
        let path = processor.turns.path();
        match processor.place.cell(&self.table, stop, path) {
            Some(cell) => self.load_quietly(p, stop, cell),
            None => self.store_quietly(p, stop),
        }
    }

    // The same where a load of this cell is left.
    fn load_quietly(&mut self, p: usize, stop: Stop<'a>, cell: usize) -> bool
        requires ready { IsMachine self.old }
        requires worker { p < length self.old.processors.items }
        requires next { ComesNext self.old p (Next.Work stop) }
        requires left { LoadsNext self.old p stop (Some cell) }
        ensures ready { IsMachine self.new }
        ensures quiet { result
            ≡ nat_lt 0 (quiet_next (model_of self.old) (shared_in self.old) (shown self.old) p) }
        ensures acts { GoesQuietly self.old self.new p result }
        ensures same { IsSameMachine self.old self.new }
    {
        let spot = self.processors[p].spot(cell);
        if spot.own.is_some() {
            self.load(p, stop, spot);
            return true;
        }
        false
    }

    // And where all loads are done.
    fn store_quietly(&mut self, p: usize, stop: Stop<'a>) -> bool
        requires ready { IsMachine self.old }
        requires worker { p < length self.old.processors.items }
        requires next { ComesNext self.old p (Next.Work stop) }
        requires loaded { LoadsNext self.old p stop None }
        ensures ready { IsMachine self.new }
        ensures quiet { result
            ≡ nat_lt 0 (quiet_next (model_of self.old) (shared_in self.old) (shown self.old) p) }
        ensures acts { GoesQuietly self.old self.new p result }
        ensures same { IsSameMachine self.old self.new }
    {
        match stop.item {
            Item::Assign(..) => self.assign_quietly(p, stop),
            Item::Print(..) => false,
            Item::Loop(_) | Item::Continue(_) => unreachable!(),
        }
    }

    // The same at an assignment.
    fn assign_quietly(&mut self, p: usize, stop: Stop<'a>) -> bool
        requires ready { IsMachine self.old }
        requires worker { p < length self.old.processors.items }
        requires next { ComesNext self.old p (Next.Work stop) }
        requires loaded { LoadsNext self.old p stop None }
        requires statement { (target : Access) × (e : Expr) × (guard : Option Guard) × (line : ℕ)
            × (stop.item.now ≡ Item.Assign target e guard line) }
        ensures ready { IsMachine self.new }
        ensures quiet { result
            ≡ nat_lt 0 (quiet_next (model_of self.old) (shared_in self.old) (shown self.old) p) }
        ensures acts { GoesQuietly self.old self.new p result }
        ensures same { IsSameMachine self.old self.new }
    {
        let spot = self.store_spot(p, stop);
        if spot.own.is_some() {
            self.store(p, stop, spot);
            return true;
        }
        false
    }

    // Where the store of an assignment whose loads are done goes.
    #[inline(always)]
    fn store_spot(&self, p: usize, stop: Stop<'a>) -> Spot
        requires ready { IsMachine self.now }
        requires worker { p < length self.now.processors.items }
        requires next { ComesNext self.now p (Next.Work stop) }
        requires loaded { LoadsNext self.now p stop None }
        requires statement { (target : Access) × (e : Expr) × (guard : Option Guard) × (line : ℕ)
            × (stop.item.now ≡ Item.Assign target e guard line) }
        ensures stores { StoresNext self.now p stop.entry result.cell }
        ensures own { IsSpot self.now p result }
    {
        let Some(form) = &self.table.work(stop.first).store else {
            unreachable!()
        };
        let processor = &self.processors[p];
        let path = processor.turns.path();
        processor.spot(form.at(path.values()))
    }

    // The act of a closing that comes next, where it is on its own cell; whether it is.
    fn close_quietly(&mut self, p: usize, place: usize) -> bool
        requires ready { IsMachine self.old }
        requires worker { p < length self.old.processors.items }
        requires next { ComesNext self.old p (Next.Close place) }
        ensures ready { IsMachine self.new }
        ensures quiet { result
            ≡ nat_lt 0 (quiet_next (model_of self.old) (shared_in self.old) (shown self.old) p) }
        ensures acts { GoesQuietly self.old self.new p result }
        ensures same { IsSameMachine self.old self.new }
    {
        if self.processors[p].done == 1 {
            return false;
        }
        self.close(p, place);
        true
    }

    // The act that comes next.
    #[inline(always)]
    fn act(&mut self, p: usize) -> StepAnswer
        requires ready { IsMachine self.old }
        requires worker { p < length self.old.processors.items }
        ensures { StepsTo self.old self.new p result }
    {
        match self.peek(p) {
            Next::Post(number) => self.post(p, number),
            Next::Await { on, wanted } => self.await_counter(p, on, wanted),
            Next::Signal(number) => self.signal(p, number),
            Next::AwaitSignal { on, wanted } => self.await_signal(p, on, wanted),
            Next::Work(stop) => self.work(p, stop),
            Next::Close(place) => self.close(p, place),
            Next::End => StepAnswer::Ended,
        }
    }

    // What comes next.
    #[inline(always)]
    fn peek(&mut self, p: usize) -> Next<'a>
        requires ready { IsMachine self.old }
        requires worker { p < length self.old.processors.items }
        ensures ready { IsMachine self.new }
        ensures next { ComesNext self.new p result }
        ensures state { shown self.new ≡ shown self.old }
        ensures same { IsSameMachine self.old self.new }
    {
        self.processors[p].peek()
    }

    // A post.
    fn post(&mut self, p: usize, number: u64) -> StepAnswer
        requires ready { IsMachine self.old }
        requires worker { p < length self.old.processors.items }
        requires next { ComesNext self.old p (Next.Post number) }
        ensures { StepsTo self.old self.new p result }
    {
        let processor = &mut self.processors[p];
        processor.counter = number;
        processor.finish(Next::Post(number));
        StepAnswer::Stepped
    }

    // A signal.
    fn signal(&mut self, p: usize, number: u64) -> StepAnswer
        requires ready { IsMachine self.old }
        requires worker { p < length self.old.processors.items }
        requires next { ComesNext self.old p (Next.Signal number) }
        ensures { StepsTo self.old self.new p result }
    {
        let processor = &mut self.processors[p];
        processor.signal = number;
        processor.finish(Next::Signal(number));
        StepAnswer::Stepped
    }

    // An await of a counter, where it is possible.
    fn await_counter(&mut self, p: usize, on: u32, wanted: u64) -> StepAnswer
        requires ready { IsMachine self.old }
        requires worker { p < length self.old.processors.items }
        requires next { ComesNext self.old p (Next.Await on wanted) }
        ensures { StepsTo self.old self.new p result }
    {
        let seen = self.processors[on as usize].counter;
        if seen < wanted {
            return StepAnswer::Blocked { on, wanted, seen };
        }
        self.processors[p].finish(Next::Await { on, wanted });
        StepAnswer::Stepped
    }

    // An await of a signal, where it is possible.
    fn await_signal(&mut self, p: usize, on: u32, wanted: u64) -> StepAnswer
        requires ready { IsMachine self.old }
        requires worker { p < length self.old.processors.items }
        requires next { ComesNext self.old p (Next.AwaitSignal on wanted) }
        ensures { StepsTo self.old self.new p result }
    {
        let seen = self.processors[on as usize].signal;
        if seen < wanted {
            return StepAnswer::Blocked { on, wanted, seen };
        }
        self.processors[p].finish(Next::AwaitSignal { on, wanted });
        StepAnswer::Stepped
    }

    // A load, a store or a PRINT of the instance at this stop.
    #[inline(always)]
    fn work(&mut self, p: usize, stop: Stop<'a>) -> StepAnswer
        requires ready { IsMachine self.old }
        requires worker { p < length self.old.processors.items }
        requires next { ComesNext self.old p (Next.Work stop) }
        ensures { StepsTo self.old self.new p result }
    {
        let processor = &self.processors[p];
        let path = processor.turns.path();
        if let Some(cell) = processor.place.cell(&self.table, stop, path) {
            let spot = processor.spot(cell);
            return self.load(p, stop, spot);
        }
        self.last_act(p, stop)
    }

    // The store or the PRINT of an instance whose loads are done.
    #[inline(always)]
    fn last_act(&mut self, p: usize, stop: Stop<'a>) -> StepAnswer
        requires ready { IsMachine self.old }
        requires worker { p < length self.old.processors.items }
        requires next { ComesNext self.old p (Next.Work stop) }
        requires loaded { LoadsNext self.old p stop None }
        ensures { StepsTo self.old self.new p result }
    {
        match stop.item {
            Item::Assign(..) => {
                let spot = self.store_spot(p, stop);
                self.store(p, stop, spot)
            }
            Item::Print(items, _) => self.print(p, stop, items),
            Item::Loop(_) | Item::Continue(_) => unreachable!(),
        }
    }

    // A load of the cell of this spot, or of the processor's own one in its place.
    #[inline(always)]
    fn load(&mut self, p: usize, stop: Stop<'a>, spot: Spot) -> StepAnswer
        requires ready { IsMachine self.old }
        requires worker { p < length self.old.processors.items }
        requires next { ComesNext self.old p (Next.Work stop) }
        requires left { LoadsNext self.old p stop (Some spot.cell) }
        requires own { IsSpot self.old p spot }
        ensures { StepsTo self.old self.new p result }
    {
        let processor = &mut self.processors[p];
        let value = match spot.own {
            Some(place) => processor.own[place],
            None => self.memory[spot.cell],
        };
        processor.registers.push(value).unwrap();
        processor.found = Some(stop);
        processor.place.advance(&self.table, stop);
        processor.done += 1;
        StepAnswer::Stepped
    }

    // The store of an assignment whose loads are done, to its cell or the processor's own one.
    #[inline(always)]
    fn store(&mut self, p: usize, stop: Stop<'a>, spot: Spot) -> StepAnswer
        requires ready { IsMachine self.old }
        requires worker { p < length self.old.processors.items }
        requires next { ComesNext self.old p (Next.Work stop) }
        requires loaded { LoadsNext self.old p stop None }
        requires statement { (target : Access) × (e : Expr) × (guard : Option Guard) × (line : ℕ)
            × (stop.item.now ≡ Item.Assign target e guard line) }
        requires stores { StoresNext self.old p stop spot.cell }
        requires own { IsSpot self.old p spot }
        ensures { StepsTo self.old self.new p result }
    {
        let processor = &mut self.processors[p];
        processor.turns.path().write_to(&mut self.loops);
        let code = self.codes.work(stop.first);
        let value = value_of_code(
            code,
            &self.loops,
            &self.params,
            &processor.registers,
            &mut self.code_registers,
        );
        match spot.own {
            Some(place) => processor.own[place] = value,
            None => self.memory[spot.cell] = value,
        }
        processor.finish(Next::Work(stop));
        StepAnswer::Stepped
    }

    // The line of a PRINT whose loads are done.
    fn print(&mut self, p: usize, stop: Stop<'a>, items: &[PrintItem]) -> StepAnswer
        requires ready { IsMachine self.old }
        requires worker { p < length self.old.processors.items }
        requires next { ComesNext self.old p (Next.Work stop) }
        requires loaded { LoadsNext self.old p stop None }
        requires statement { (listed : Vec PrintItem Global) × (line : ℕ)
            × (stop.item.now ≡ Item.Print listed line) × (items.now ≡ listed.items) }
        ensures { StepsTo self.old self.new p result }
    {
        let processor = &mut self.processors[p];
        processor.turns.path().write_to(&mut self.loops);
        let given = Given {
            loops: &self.loops,
            params: &self.params,
            loaded: &processor.registers,
        };
        self.output.push_line(self.program, items, &given).unwrap();
        processor.finish(Next::Work(stop));
        StepAnswer::Stepped
    }

    // An act of a closing: the load of the own cell; its value to the shared one; and behind an
    // addition 0 to the own cell.
    fn close(&mut self, p: usize, place: usize) -> StepAnswer
        requires ready { IsMachine self.old }
        requires worker { p < length self.old.processors.items }
        requires next { ComesNext self.old p (Next.Close place) }
        ensures { StepsTo self.old self.new p result }
    {
        let done = self.processors[p].done;
        if done == 0 {
            self.load_total(p, place)
        } else if done == 1 {
            self.give_total(p, place)
        } else {
            self.clear_total(p, place)
        }
    }

    fn load_total(&mut self, p: usize, place: usize) -> StepAnswer
        requires ready { IsMachine self.old }
        requires worker { p < length self.old.processors.items }
        requires next { ComesNext self.old p (Next.Close place) }
        requires none { HasDone self.old p 0 }
        ensures { StepsTo self.old self.new p result }
    {
        let processor = &mut self.processors[p];
        let value = processor.own[place];
        processor.registers.push(value).unwrap();
        processor.done = 1;
        StepAnswer::Stepped
    }

    fn give_total(&mut self, p: usize, place: usize) -> StepAnswer
        requires ready { IsMachine self.old }
        requires worker { p < length self.old.processors.items }
        requires next { ComesNext self.old p (Next.Close place) }
        requires loaded { HasDone self.old p 1 }
        ensures { StepsTo self.old self.new p result }
    {
        let processor = &mut self.processors[p];
        let value = processor.registers[0];
        let cell = processor.turns.own_cells().cell(place) as usize;
        if is_sum_place(place) {
            self.memory[cell] = self.memory[cell].wrapping_add(value);
            processor.registers.clear();
            processor.done = 2;
        } else {
            self.memory[cell] = value;
            processor.finish(Next::Close(place));
        }
        StepAnswer::Stepped
    }

    fn clear_total(&mut self, p: usize, place: usize) -> StepAnswer
        requires ready { IsMachine self.old }
        requires worker { p < length self.old.processors.items }
        requires next { ComesNext self.old p (Next.Close place) }
        requires added { HasDone self.old p 2 }
        ensures { StepsTo self.old self.new p result }
    {
        let processor = &mut self.processors[p];
        processor.own[place] = 0;
        processor.finish(Next::Close(place));
        StepAnswer::Stepped
    }

    // The steps of a schedule, a list of processor numbers, one after another.
    pub(crate) fn run_schedule(&mut self, schedule: &[u32])
        requires ready { IsMachine self.old }
        requires workers { All (λ p. p < (plan_in self.old).workers) schedule.now }
        ensures ready { IsMachine self.new }
        ensures run { shown self.new ≡ fold (turned (model_of self.old) (shared_in self.old))
            (shown self.old) schedule.now }
        ensures same { IsSameMachine self.old self.new }
    {
        for p in schedule {
            self.step(*p);
        }
    }

    // Rounds of one step per processor until all have ended.
    pub(crate) fn round_robin(&mut self)
        requires ready { IsMachine self.old }
        ensures ready { IsMachine self.new }
        ensures rounds { (count : ℕ)
            × (shown self.new ≡ fold (turned (model_of self.old) (shared_in self.old))
            (shown self.old) (rounds (model_of self.old) count)) }
        ensures ended { IsEnded (model_of self.old) (shown self.new) }
        ensures same { IsSameMachine self.old self.new }
    {
        while self.round() {}
    }

    // One step of each processor; whether one of them did its next act.
    fn round(&mut self) -> bool
        requires ready { IsMachine self.old }
        ensures ready { IsMachine self.new }
        ensures run { shown self.new ≡ fold (turned (model_of self.old) (shared_in self.old))
            (shown self.old) (one_round (model_of self.old)) }
        ensures nearer { result ≡ true
            → acts_to_go (model_of self.old) (shown self.new) < acts_to_go (model_of self.old)
            (shown self.old) }
        ensures still { result ≡ false → (p : ℕ) → p < (plan_in self.old).workers
            → can_step (model_of self.old) (shown self.new) p ≡ false }
        ensures same { IsSameMachine self.old self.new }
    {
        let mut has_stepped = false;
        for p in 0..self.plan.workers {
            if let StepAnswer::Stepped = self.step(p) {
                has_stepped = true;
            }
        }
        has_stepped
    }
}

// The processors, each at its first turn, with room for so many registers.
fn processors_of<'a>(
    alloc: Global,
    program: &'a Program,
    plan: &'a Plan,
    style: Style,
    room: usize,
) -> Result<Vec<Processor<'a>>, AllocError>
    requires fits { IsFit (tree_of program.now) plan.now }
    ensures count { IfOk result (λ v. length v.items ≡ plan.now.workers) }
    ensures fresh { IfOk result (λ v. AreFresh style (tree_of program.now) plan.now room v.items) }
{
    let mut processors = Vec::new(alloc);
    for p in 0..plan.workers {
        processors.push(Processor {
            turns: Turns::new(program, plan, style, p),
            registers: Vec::with_capacity(alloc, room)?,
            found: None,
            place: LoadPlace::first(),
            done: 0,
            counter: 0,
            signal: 0,
            own: [0; OWN_PLACES],
        })?;
    }
    Ok(processors)
}
