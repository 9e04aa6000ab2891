// Instances run whole.

ghost use Rattle.std.specs.Prelude.{◌≡◌, ◌+◌, ◌≤◌, ◌<◌, ℕ, [], ◌∷◌, ◌++◌, IfOk, IsTrue, List, length, map, nat_lt, take};
ghost use Rattle.std.specs.List.{flat_map, list_all};
ghost use Rattle.nest_tree.specs.Tree.{Assignment, assign, param_values, work};
ghost use Rattle.nest_tree.specs.View.{statement_of, tree_of};
ghost use Rattle.nest_walk.specs.RoundsOf.{rounds_of};
ghost use Rattle.nest_walk.specs.Tables.{IsCellTable};
ghost use Rattle.flat_code.specs.Lines.{cell_on};
ghost use Rattle.seq_meaning.specs.Loads.{cells_of_load, is_load_within};
ghost use Rattle.spmd_model.specs.Deeds.{Deed, loading};
ghost use Rattle.instance_runs.specs.Loads.{width, widths};

use crate::deeds::Deeds;
use crate::room::most_loads;
use flat_code::{CodeTable, Line, lay_lines, line_of, run_code};
use nest_tree::{Item, PrintItem, Program};
use nest_walk::{CellTable, LoadCells, MOST_LOOPS, Path, Stop, Strip};
use seq_meaning::{Given, Output};
use std::alloc::{AllocError, Global};

// The most statements that a program has, and so the most loops.
const MOST_STATEMENTS: usize = 400;

// So many registers are left over, so that those of one processor never share a line of memory with
// what another, on another thread, writes behind them.
const APART: usize = 16;

/// What a processor executes its instances with: the program with its cells and the values of its
/// named constants, which others may be lent too, the codes of what it assigns, the values of loops
/// by number, the lines of a strip, registers, in whose first ones stands what the loads of the
/// instance that has begun gave, and the output.
#[derive(Drop)]
pub struct Executor<'a> {
    program: &'a Program,
    table: &'a CellTable,
    codes: CodeTable,
    params: &'a [i64],
    loops: Vec<i64>,
    lines: Vec<Line>,
    registers: Vec<i64>,
    output: Output,
}

impl<'a> Executor<'a> {
    ghost use Rattle.std.specs.Prelude.{Vec};
    ghost use Rattle.std.specs.Global.{Global};
    ghost use Rattle.nest_tree.specs.declared.tree.PrintItem.{PrintItem};
    ghost use Rattle.nest_model.specs.Ranges.{is_instance_inside};
    ghost use Rattle.nest_walk.specs.Cursors.{visit_at};
    ghost use Rattle.nest_walk.specs.Strips.{strip_left, strip_tree};
    ghost use Rattle.spmd_model.specs.Deeds.{instance_deeds};
    ghost use Rattle.instance_runs.specs.Executors.{AreWritten, Begins, CanExecute, executor_output, executor_room, executor_tree};
    ghost use Rattle.instance_runs.specs.Rooms.{visit_room};

    /// No output yet, with room for so many bytes of it.
    pub fn new(
        alloc: Global,
        program: &'a Program,
        table: &'a CellTable,
        params: &'a [i64],
        room: usize,
    ) -> Result<Self, AllocError>
        requires table { IsCellTable (tree_of program.now) table.now }
        requires params { params.now ≡ param_values (tree_of program.now) }
        ensures can { IfOk result (λ x. CanExecute x) }
        ensures program { IfOk result (λ x. executor_tree x ≡ tree_of program.now) }
        ensures output { IfOk result (λ x. executor_output x ≡ []) }
        ensures room { IfOk result (λ x. room ≤ executor_room x) }
    {
        let loaded = most_loads(program, table).ok_or(AllocError)?;
        let codes = CodeTable::new(alloc, program)?;
        let most = codes.registers() as usize;
        let none = Line {
            origin: 0,
            stride: 0,
        };
        Ok(Executor {
            program,
            table,
            codes,
            params,
            loops: vec![in alloc; 0; MOST_STATEMENTS]?,
            lines: vec![in alloc; none; most]?,
            registers: vec![in alloc; 0; loaded.saturating_add(most).saturating_add(APART)]?,
            output: Output::with_room(alloc, room)?,
        })
    }

    /// The output so far.
    pub fn output(&self) -> &[u8]
        ensures { result.now ≡ executor_output self.now }
    {
        self.output.as_slice()
    }

    /// The output, where nothing more is executed.
    pub fn into_output(self) -> Output
        ensures { result.bytes ≡ executor_output self.entry }
    {
        self.output
    }

    /// The instance at a stop with these loops round it, whole: its loads, one behind another, and
    /// its store or its line. It takes no memory.
    pub fn execute<D: Deeds>(&mut self, stop: Stop, path: &Path, deeds: &mut D)
        requires can { CanExecute self.old }
        requires begins { Begins (executor_tree self.old) (rounds_of path.now) stop
            (D.left deeds.old) }
        requires idle { D.registers deeds.old ≡ [] }
        requires output { executor_output self.old ≡ D.printed deeds.old }
        requires room { length (executor_output self.old) + visit_room (executor_tree self.old)
            (visit_at (executor_tree self.old) (rounds_of path.now) stop) ≤ executor_room self.old }
        ensures can { CanExecute self.new }
        ensures program { executor_tree self.new ≡ executor_tree self.old }
        ensures left { (b : Begins (executor_tree self.old) (rounds_of path.now) stop.entry
            (D.left deeds.old)) → D.left deeds.new ≡ b.rest }
        ensures idle { D.registers deeds.new ≡ [] }
        ensures output { executor_output self.new ≡ D.printed deeds.new }
        ensures room { executor_room self.old ≤ executor_room self.new }
        ensures grown { length (executor_output self.new) ≤ length (executor_output self.old)
            + visit_room (executor_tree self.old)
            (visit_at (executor_tree self.old) (rounds_of path.now) stop.entry) }
        ensures kept { D.kept deeds.new ≡ D.kept deeds.old }
    {
        path.write_to(&mut self.loops);
        match stop.item {
            Item::Assign(..) => self.assign(stop, path, deeds),
            Item::Print(items, _) => self.print(stop, items, path, deeds),
            Item::Loop(_) | Item::Continue(_) => unreachable!(),
        }
    }

    /// The instances of a strip, one after another, each whole.
    pub fn repeat<D: Deeds>(&mut self, strip: Strip, deeds: &mut D)
        requires can { CanExecute self.old }
        requires walked { strip_tree strip ≡ executor_tree self.old }
        requires inside { IsTrue (list_all (is_instance_inside (executor_tree self.old))
            (strip_left strip)) }
        requires left { (rest : List Deed)
            × (D.left deeds.old ≡ flat_map (instance_deeds (executor_tree self.old))
            (strip_left strip) ++ rest) }
        requires idle { D.registers deeds.old ≡ [] }
        ensures can { CanExecute self.new }
        ensures program { executor_tree self.new ≡ executor_tree self.old }
        ensures left { D.left deeds.old ≡ flat_map (instance_deeds (executor_tree self.old))
            (strip_left strip.entry) ++ D.left deeds.new }
        ensures idle { D.registers deeds.new ≡ [] }
        ensures printed { D.printed deeds.new ≡ D.printed deeds.old }
        ensures output { executor_output self.new ≡ executor_output self.old }
        ensures room { executor_room self.new ≡ executor_room self.old }
        ensures kept { D.kept deeds.new ≡ D.kept deeds.old }
    {
        let mut trips = strip;
        let path = trips.path();
        let stop = trips.stop();
        let cells = self.table.work(stop.first);
        let Some(form) = &cells.store else {
            unreachable!()
        };
        let code = self.codes.work(stop.first);
        let store = line_of(form, path);
        lay_lines(&cells.loads, path, &mut self.lines);
        let lines = &self.lines[..cells.loads.len()];
        path.write_to(&mut self.loops);
        let place = trips.number() as usize - 1;
        while let Some(value) = trips.next() {
            self.loops[place] = value;
            load_lines(lines, value, &mut self.registers, deeds);
            let result = run_code(code, &self.loops, self.params, &mut self.registers);
            deeds.store(store.at(value) as u32, result);
        }
    }

    // An assignment with these loops round it, whose values are written.
    #[inline(always)]
    fn assign<D: Deeds>(&mut self, stop: Stop, path: &Path, deeds: &mut D)
        requires can { CanExecute self.old }
        requires written { AreWritten self.old (rounds_of path.now) }
        requires statement { (a : Assignment) × (statement_of stop.item.now ≡ work (assign a)) }
        requires begins { Begins (executor_tree self.old) (rounds_of path.now) stop
            (D.left deeds.old) }
        requires idle { D.registers deeds.old ≡ [] }
        ensures can { CanExecute self.new }
        ensures program { executor_tree self.new ≡ executor_tree self.old }
        ensures loops { self.new.loops.items ≡ self.old.loops.items }
        ensures left { (b : Begins (executor_tree self.old) (rounds_of path.now) stop.entry
            (D.left deeds.old)) → D.left deeds.new ≡ b.rest }
        ensures idle { D.registers deeds.new ≡ [] }
        ensures printed { D.printed deeds.new ≡ D.printed deeds.old }
        ensures output { self.new.output ≡ self.old.output }
        ensures kept { D.kept deeds.new ≡ D.kept deeds.old }
    {
        let cells = self.table.work(stop.first);
        let code = self.codes.work(stop.first);
        load_all(&cells.loads, path.values(), &mut self.registers, deeds);
        let value = run_code(code, &self.loops, self.params, &mut self.registers);
        let Some(form) = &cells.store else {
            unreachable!()
        };
        deeds.store(form.at(path.values()) as u32, value);
    }

    // A PRINT with these loops round it, whose values are written.
    fn print<D: Deeds>(&mut self, stop: Stop, items: &[PrintItem], path: &Path, deeds: &mut D)
        requires can { CanExecute self.old }
        requires written { AreWritten self.old (rounds_of path.now) }
        requires statement { (listed : Vec PrintItem Global) × (line : ℕ)
            × (stop.item.now ≡ Item.Print listed line) × (items.now ≡ listed.items) }
        requires begins { Begins (executor_tree self.old) (rounds_of path.now) stop
            (D.left deeds.old) }
        requires idle { D.registers deeds.old ≡ [] }
        requires output { executor_output self.old ≡ D.printed deeds.old }
        requires room { length (executor_output self.old) + visit_room (executor_tree self.old)
            (visit_at (executor_tree self.old) (rounds_of path.now) stop) ≤ executor_room self.old }
        ensures can { CanExecute self.new }
        ensures program { executor_tree self.new ≡ executor_tree self.old }
        ensures left { (b : Begins (executor_tree self.old) (rounds_of path.now) stop.entry
            (D.left deeds.old)) → D.left deeds.new ≡ b.rest }
        ensures idle { D.registers deeds.new ≡ [] }
        ensures output { executor_output self.new ≡ D.printed deeds.new }
        ensures room { executor_room self.old ≤ executor_room self.new }
        ensures grown { length (executor_output self.new) ≤ length (executor_output self.old)
            + visit_room (executor_tree self.old)
            (visit_at (executor_tree self.old) (rounds_of path.now) stop.entry) }
        ensures kept { D.kept deeds.new ≡ D.kept deeds.old }
    {
        let cells = self.table.work(stop.first);
        let count = load_all(&cells.loads, path.values(), &mut self.registers, deeds);
        let given = Given {
            loops: &self.loops,
            params: self.params,
            loaded: &self.registers[..count],
        };
        self.output.push_line(self.program, items, &given).unwrap();
        deeds.print();
    }
}

// What the cells of lines hold where their loop has this value, one load behind another, into the
// first registers.
#[inline(always)]
fn load_lines<D: Deeds>(lines: &[Line], value: i64, registers: &mut [i64], deeds: &mut D)
    requires within { IsTrue (list_all (λ line. nat_lt (cell_on line value) 1048576) lines.now) }
    requires left { (rest : List Deed)
        × (D.left deeds.old ≡ map loading (map (λ line. cell_on line value) lines.now) ++ rest) }
    requires idle { D.registers deeds.old ≡ [] }
    requires room { length lines.now ≤ length registers.old }
    ensures left { D.left deeds.old ≡ map loading (map (λ line. cell_on line value) lines.now)
        ++ D.left deeds.new }
    ensures registers { D.registers deeds.new ≡ take (length lines.now) registers.new }
    ensures room { length registers.new ≡ length registers.old }
    ensures printed { D.printed deeds.new ≡ D.printed deeds.old }
    ensures kept { D.kept deeds.new ≡ D.kept deeds.old }
{
    for (k, line) in lines.iter().enumerate() {
        registers[k] = deeds.load(line.at(value) as u32);
    }
}

// The values of loads, one behind another, into registers; how many there are.
#[inline(always)]
fn load_all<D: Deeds>(
    loads: &[LoadCells],
    values: &[i64; MOST_LOOPS],
    registers: &mut [i64],
    deeds: &mut D,
) -> usize
    requires within { IsTrue (list_all (is_load_within 1048576 values.now) loads.now) }
    requires left { (rest : List Deed)
        × (D.left deeds.old ≡ map loading (flat_map (cells_of_load values.now) loads.now) ++ rest) }
    requires idle { D.registers deeds.old ≡ [] }
    requires room { widths loads.now ≤ length registers.old }
    ensures left { D.left deeds.old ≡ map loading (flat_map (cells_of_load values.now) loads.now)
        ++ D.left deeds.new }
    ensures registers { D.registers deeds.new ≡ take result registers.new }
    ensures count { result ≡ widths loads.now }
    ensures printed { D.printed deeds.new ≡ D.printed deeds.old }
    ensures kept { D.kept deeds.new ≡ D.kept deeds.old }
{
    let mut count = 0;
    for load in loads {
        count += load_one(load, values, &mut registers[count..], deeds);
    }
    count
}

// The values of a load; how many there are.
#[inline(always)]
fn load_one<D: Deeds>(
    load: &LoadCells,
    values: &[i64; MOST_LOOPS],
    registers: &mut [i64],
    deeds: &mut D,
) -> usize
    requires within { IsTrue (is_load_within 1048576 values.now load.now) }
    requires left { (rest : List Deed)
        × (D.left deeds.old ≡ map loading (cells_of_load values.now load.now) ++ rest) }
    requires room { width load.now ≤ length registers.old }
    ensures left { D.left deeds.old ≡ map loading (cells_of_load values.now load.now)
        ++ D.left deeds.new }
    ensures registers { D.registers deeds.new ≡ D.registers deeds.old ++ take result registers.new }
    ensures count { result ≡ width load.now }
    ensures printed { D.printed deeds.new ≡ D.printed deeds.old }
    ensures kept { D.kept deeds.new ≡ D.kept deeds.old }
{
    match load {
        LoadCells::Element(form) => {
            registers[0] = deeds.load(form.at(values) as u32);
            1
        }
        LoadCells::Array { first, count } => {
            for element in 0..*count {
                registers[element as usize] = deeds.load(*first + element);
            }
            *count as usize
        }
    }
}
