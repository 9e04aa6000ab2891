// Steps over numbered registers, and what they leave there.

ghost use Rattle.std.specs.Prelude.{◌≡◌, ◌≤◌, ◌<◌, IfOk, IsTrue, length, take};
ghost use Rattle.nest_tree.specs.Tree.{Expression};
ghost use Rattle.nest_model.specs.Meaning.{value_of};
ghost use Rattle.flat_code.specs.Codes.{IsCodeOf, are_good_steps, is_good_step, registers_after, registers_of, step_value};

use nest_tree::arithmetic::{difference, negated, product, sum, truncated_quotient};
use std::alloc::AllocError;

/// One step: what the next register becomes, from earlier ones by their numbers from 0.
#[derive(Clone, Copy, Debug, PartialEq, Eq)]
pub enum Step {
    Number(i64),
    /// The value of the loop with this number, from 1.
    Loop(u32),
    /// The value of the named constant with this number, from 1.
    Param(u32),
    Neg(u32),
    Add(u32, u32),
    Sub(u32, u32),
    Mul(u32, u32),
    /// A quotient by a number other than 0.
    Div(u32, i64),
    Min(u32, u32),
    Max(u32, u32),
}

/// An expression as steps: so many registers hold its loads in text order, each step appends one,
/// and one of all these has the value.
#[derive(Drop)]
pub struct Code {
    pub steps: Vec<Step>,
    pub loads: u32,
    pub result: u32,
}

impl Step {
    /// What the step appends.
    #[inline(always)]
    pub fn value(self, loops: &[i64], params: &[i64], registers: &[i64]) -> i64
        requires { IsTrue (is_good_step (length loops.now) (length params.now)
            (length registers.now) self) }
        ensures { result ≡ step_value self loops.now params.now registers.now }
    {
        match self {
            Step::Number(n) => n,
            Step::Loop(l) => loops[l as usize - 1],
            Step::Param(p) => params[p as usize - 1],
            Step::Neg(a) => negated(registers[a as usize]),
            Step::Add(a, b) => sum(registers[a as usize], registers[b as usize]),
            Step::Sub(a, b) => difference(registers[a as usize], registers[b as usize]),
            Step::Mul(a, b) => product(registers[a as usize], registers[b as usize]),
            Step::Div(a, divisor) => truncated_quotient(registers[a as usize], divisor),
            Step::Min(a, b) => registers[a as usize].min(registers[b as usize]),
            Step::Max(a, b) => registers[a as usize].max(registers[b as usize]),
        }
    }
}

/// How many registers the code fills. More than 2^32 count as more than memory has room for.
pub fn registers_needed(code: &Code) -> Result<u32, AllocError>
    ensures { IfOk result (λ n. n ≡ registers_of code.now) }
{
    small(u128::from(code.loads) + code.steps.len() as u128)
}

// A number of registers or loads, where 32 bits hold it.
pub(crate) fn small(n: u128) -> Result<u32, AllocError>
    ensures { IfOk result (λ m. m ≡ n) }
{
    if n > 4294967295 {
        Err(AllocError)
    } else {
        Ok(n as u32)
    }
}

/// The value of each expression that this is the code of, where loops and named constants have
/// these values by number; the loads gave what `loaded` begins with, in text order. What the
/// registers held is of no account.
pub fn value_of_code(
    code: &Code,
    loops: &[i64],
    params: &[i64],
    loaded: &[i64],
    registers: &mut [i64],
) -> i64
    requires room { registers_of code.now ≤ length registers.old }
    requires loads { code.now.loads ≤ length loaded.now }
    requires inside { code.now.result < registers_of code.now }
    requires good { IsTrue
        (are_good_steps (length loops.now)
        (length params.now) code.now.loads code.now.steps.items) }
    ensures value { (e : Expression) → IsCodeOf e code.now
        → result ≡ value_of e loops.now params.now loaded.now }
    ensures room { length registers.new ≡ length registers.old }
{
    let loads = code.loads as usize;
    for k in 0..loads {
        registers[k] = loaded[k];
    }
    run_code(code, loops, params, registers)
}

/// The same, where the first registers hold already what the loads gave.
pub fn run_code(code: &Code, loops: &[i64], params: &[i64], registers: &mut [i64]) -> i64
    requires room { registers_of code.now ≤ length registers.old }
    requires inside { code.now.result < registers_of code.now }
    requires good { IsTrue
        (are_good_steps (length loops.now)
        (length params.now) code.now.loads code.now.steps.items) }
    ensures registers { take (registers_of code.now) registers.new
        ≡ registers_after code.now.steps.items loops.now params.now
        (take code.now.loads registers.old) }
    ensures value { (e : Expression) → IsCodeOf e code.now
        → result ≡ value_of e loops.now params.now (take code.now.loads registers.old) }
    ensures room { length registers.new ≡ length registers.old }
{
    let loads = code.loads as usize;
    for (k, &step) in code.steps.iter().enumerate() {
        let value = step.value(loops, params, registers);
        registers[loads + k] = value;
    }
    registers[code.result as usize]
}
