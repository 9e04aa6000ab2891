// The sequential run.

ghost use Rattle.std.specs.Prelude.{◌≡◌, ◌++◌, IfOk, IsTrue, OnOk, fold};
ghost use Rattle.std.specs.List.{list_all};
ghost use Rattle.nest_tree.specs.Tree.{Assignment, Work, assign, work};
ghost use Rattle.nest_tree.specs.View.{statement_of, tree_of};
ghost use Rattle.nest_model.specs.Memory.{last_memory, memory_after, output_from, output_of};
ghost use Rattle.nest_model.specs.Ranges.{IsInRange, is_instance_inside};
ghost use Rattle.nest_walk.specs.CellForms.{cell_at};
ghost use Rattle.nest_walk.specs.Cursors.{loops_in};
ghost use Rattle.nest_walk.specs.InstancesLeft.{instances_left, instances_tree};
ghost use Rattle.nest_walk.specs.Strips.{strip_left, strip_tree};
ghost use Rattle.nest_walk.specs.RoundsOf.{rounds_of};

use crate::load::{load, load_firsts, load_lines};
use crate::output::Output;
use crate::value::Given;
use flat_code::{CodeTable, Line, lay_lines, line_of, run_code};
use nest_tree::{Item, Program};
use nest_walk::{CellTable, Instances, Path, Stop, Strip};
use std::alloc::{AllocError, Global};

// The most statements that a program has, and so the most loops.
const MOST_STATEMENTS: usize = 400;

/// Runs a program's instances in sequential order, from a memory of zeros: the last memory, by
/// cells, and the whole output.
pub fn run_sequential(alloc: Global, program: &Program) -> Result<(Vec<i64>, Output), AllocError>
    requires ranges { IsInRange (tree_of program.now) }
    ensures memory { IfOk result (λ end. end.0.items ≡ last_memory (tree_of program.now)) }
    ensures output { IfOk result (λ end. end.1.bytes ≡ output_of (tree_of program.now)) }
{
    let mut run = Run::new(alloc, program)?;
    run.execute_all(Instances::new(program))?;
    let Run { memory, output, .. } = run;
    Ok((memory, output))
}

/// A run: the program with its cells and codes, the values of its named constants and of loops by
/// number, the lines of a strip, registers, what the last PRINT loaded, memory and the output.
#[derive(Drop)]
struct Run<'a> {
    program: &'a Program,
    table: CellTable,
    codes: CodeTable,
    params: Vec<i64>,
    loops: Vec<i64>,
    lines: Vec<Line>,
    registers: Vec<i64>,
    loaded: Vec<i64>,
    memory: Vec<i64>,
    output: Output,
}

impl<'a> Run<'a> {
    ghost use Rattle.std.specs.Prelude.{[]};
    ghost use Rattle.nest_model.specs.Memory.{first_memory};
    ghost use Rattle.seq_meaning.specs.Executions.{IsPlacedWork, IsReady, IsWritten, memory_behind, printed_behind};

    // A run in front of its first instance.
    fn new(alloc: Global, program: &'a Program) -> Result<Self, AllocError>
        ensures ready { IfOk result (λ run. IsReady run) }
        ensures program { IfOk result (λ run. run.program.now ≡ program.now) }
        ensures memory { IfOk result (λ run. run.memory.items
            ≡ first_memory (tree_of program.now)) }
        ensures output { IfOk result (λ run. run.output.bytes ≡ []) }
    {
        let mut params = Vec::with_capacity(alloc, program.params.len())?;
        for parameter in &program.params {
            params.push(parameter.value)?;
        }
        let codes = CodeTable::new(alloc, program)?;
        let most = codes.registers() as usize;
        let none = Line {
            origin: 0,
            stride: 0,
        };
        Ok(Run {
            program,
            table: CellTable::new(alloc, program)?,
            codes,
            params,
            loops: vec![in alloc; 0; MOST_STATEMENTS]?,
            lines: vec![in alloc; none; most]?,
            registers: vec![in alloc; 0; most]?,
            loaded: Vec::new(alloc),
            memory: vec![in alloc; 0; program.cell_count() as usize]?,
            output: Output::new(alloc),
        })
    }

    // The execution of these instances.
    fn execute_all(&mut self, instances: Instances) -> Result<(), AllocError>
        requires ready { IsReady self.old }
        requires walked { instances_tree instances ≡ (tree_of self.old.program.now) }
        requires inside { IsTrue (list_all (is_instance_inside (tree_of self.old.program.now))
            (instances_left instances)) }
        ensures ready { OnOk result (IsReady self.new) }
        ensures program { OnOk result (self.new.program.now ≡ self.old.program.now) }
        ensures memory { OnOk result (self.new.memory.items
            ≡ fold (memory_after (tree_of self.old.program.now)) self.old.memory.items
            (instances_left instances.entry)) }
        ensures output { OnOk result (self.new.output.bytes ≡ self.old.output.bytes
            ++ output_from (tree_of self.old.program.now) self.old.memory.items
            (instances_left instances.entry)) }
    {
        let mut left = instances;
        'rest: loop {
            if let Some(strip) = left.strip() {
                self.repeat(strip);
            } else if let Some(stop) = left.next() {
                self.execute(stop, left.path())?;
            } else {
                return Ok(());
            }
        }
    }

    // The trips of a loop round one assignment, which is always executed.
    #[inline(never)]
    fn repeat(&mut self, strip: Strip)
        requires ready { IsReady self.old }
        requires walked { strip_tree strip ≡ tree_of self.old.program.now }
        requires inside { IsTrue (list_all (is_instance_inside (tree_of self.old.program.now))
            (strip_left strip)) }
        ensures ready { IsReady self.new }
        ensures program { self.new.program.now ≡ self.old.program.now }
        ensures memory { self.new.memory.items
            ≡ fold (memory_after (tree_of self.old.program.now)) self.old.memory.items
            (strip_left strip.entry) }
        ensures output { self.new.output.bytes ≡ self.old.output.bytes
            ++ output_from (tree_of self.old.program.now) self.old.memory.items
            (strip_left strip.entry) }
    {
        let mut left = strip;
        let path = left.path();
        let stop = left.stop();
        let cells = self.table.work(stop.first);
        let Some(form) = &cells.store else {
            unreachable!()
        };
        let code = self.codes.work(stop.first);
        let store = line_of(form, path);
        lay_lines(&cells.loads, path, &mut self.lines);
        let lines = &self.lines[..cells.loads.len()];
        path.write_to(&mut self.loops);
        let place = left.number() as usize - 1;
        while let Some(value) = left.next() {
            self.loops[place] = value;
            load_lines(&self.memory, lines, value, &mut self.registers);
            let result = run_code(code, &self.loops, &self.params, &mut self.registers);
            self.memory[store.at(value)] = result;
        }
    }

    // The execution of an assignment with these loops round it, whose values are written.
    fn assign(&mut self, stop: Stop, path: &Path)
        requires ready { IsReady self.old }
        requires written { IsWritten self.old (rounds_of path.now) }
        requires placed { IsPlacedWork (tree_of self.old.program.now)
            (rounds_of path.now) stop.first (statement_of stop.item.now) }
        requires statement { (a : Assignment) × (statement_of stop.item.now ≡ work (assign a)) }
        ensures ready { IsReady self.new }
        ensures program { self.new.program.now ≡ self.old.program.now }
        ensures loops { self.new.loops.items ≡ self.old.loops.items }
        ensures memory { (w : Work) → statement_of stop.entry.item.now ≡ work w
            → self.new.memory.items ≡ memory_behind (tree_of self.old.program.now)
            (loops_in (tree_of self.old.program.now) (rounds_of path.now)) w self.old.memory.items }
        ensures output { self.new.output.bytes ≡ self.old.output.bytes }
    {
        let cells = self.table.work(stop.first);
        let code = self.codes.work(stop.first);
        load_firsts(
            &self.memory,
            &cells.loads,
            path.values(),
            &mut self.registers,
        );
        let value = run_code(code, &self.loops, &self.params, &mut self.registers);
        if let Some(form) = &cells.store {
            self.memory[form.at(path.values())] = value;
        }
    }

    // The execution of a piece of work with these loops round it.
    fn execute(&mut self, stop: Stop, path: &Path) -> Result<(), AllocError>
        requires ready { IsReady self.old }
        requires placed { IsPlacedWork (tree_of self.old.program.now)
            (rounds_of path.now) stop.first (statement_of stop.item.now) }
        ensures ready { OnOk result (IsReady self.new) }
        ensures program { OnOk result (self.new.program.now ≡ self.old.program.now) }
        ensures memory { OnOk result ((w : Work) → statement_of stop.entry.item.now ≡ work w
            → self.new.memory.items ≡ memory_behind (tree_of self.old.program.now)
            (loops_in (tree_of self.old.program.now)
            (rounds_of path.now)) w self.old.memory.items) }
        ensures output { OnOk result ((w : Work) → statement_of stop.entry.item.now ≡ work w
            → self.new.output.bytes ≡ self.old.output.bytes
            ++ printed_behind (tree_of self.old.program.now)
            (loops_in (tree_of self.old.program.now)
            (rounds_of path.now)) w self.old.memory.items) }
    {
        path.write_to(&mut self.loops);
        match stop.item {
            Item::Assign(..) => {
                self.assign(stop, path);
                Ok(())
            }
            Item::Print(items, _) => {
                let cells = self.table.work(stop.first);
                load(&self.memory, &cells.loads, path.values(), &mut self.loaded)?;
                let given = Given {
                    loops: &self.loops,
                    params: &self.params,
                    loaded: &self.loaded,
                };
                self.output.push_line(self.program, items, &given)
            }
            Item::Loop(_) | Item::Continue(_) => unreachable!(),
        }
    }
}
