// Systems, while their rows are read.

ghost use Rattle.std.specs.Prelude.{◌≡◌, ◌≢◌, ◌↔◌, ◌++◌, [], ◌∷◌, Some, Ok, Err, OnOk, OnErr, IfOk, IfErr, IsTrue, length};
ghost use Rattle.farkas_cert.specs.Narrow.{IsNarrowRow};
ghost use Rattle.bench_parts.specs.declared.line.Line.TheVariants as lines;
ghost use Rattle.bench_parts.specs.declared.line.LineFault.TheVariants.{NoMemory};
ghost use Rattle.bench_parts.specs.Tasks as spec;

use crate::line::{Head, Line, LineFault, Name};
use farkas_cert::{NarrowSystem, Row};
use std::alloc::{AllocError, Global};

/// A system that is being read: its name, its rows so far, and how many are missing.
#[derive(Drop)]
pub struct Task {
    pub name: Name,
    pub missing: u32,
    pub system: NarrowSystem,
}

impl Task {
    ghost use Rattle.bench_parts.specs.Tasks.{first_task, task_with};

    /// The system of a head, with no row yet.
    pub fn new(alloc: Global, head: Head) -> Task
        ensures { result ≡ first_task head }
    {
        let Head {
            name,
            variables,
            rows,
        } = head;
        Task {
            name,
            missing: rows,
            system: NarrowSystem::empty(alloc, variables),
        }
    }

    /// Adds a row.
    pub fn add(&mut self, row: Row) -> Result<(), AllocError>
        requires full { length row.coefs ≡ self.old.system.vars }
        requires narrow { IsNarrowRow row }
        ensures ok { OnOk result (self.new ≡ task_with row self.old) }
        ensures err { OnErr result (self.new ≡ self.old) }
    {
        self.system.push(row)?;
        self.missing = self.missing.saturating_sub(1);
        Ok(())
    }

    /// Whether all rows are there.
    pub fn is_complete(&self) -> bool
        ensures { IsTrue result ↔ (self.now.missing ≡ 0) }
    {
        self.missing == 0
    }
}

/// The open system behind a line: it begins with a head, and each row comes to it.
pub fn open_behind(
    alloc: Global,
    pending: Option<Task>,
    line: Line,
) -> Result<Option<Task>, LineFault>
    requires { spec.IsNarrowLine line }
    ensures task { IfOk result (λ next. spec.open_behind pending line ≡ Ok next) }
    ensures misplaced { IfErr result (λ fault. fault ≢ NoMemory
        → spec.open_behind pending line ≡ Err fault) }
{
    match (line, pending) {
        (Line::Nothing, pending) => Ok(pending),
        (Line::Head(head), None) => Ok(Some(Task::new(alloc, head))),
        (Line::Head(_), Some(task)) => Err(LineFault::MissingRows(task.missing)),
        (Line::Row(row), Some(task)) => with_row(task, row),
        (Line::Row(_), None) => Err(LineFault::NoSystem),
    }
}

// The task with one row more, if it has a coefficient for each variable.
fn with_row(mut task: Task, row: Row) -> Result<Option<Task>, LineFault>
    requires { spec.IsNarrowLine (lines.Row row) }
    ensures task { IfOk result (λ next. spec.open_behind (Some task) (lines.Row row) ≡ Ok next) }
    ensures misplaced { IfErr result (λ fault. fault ≢ NoMemory
        → spec.open_behind (Some task) (lines.Row row) ≡ Err fault) }
{
    let count = row.coefs.as_slice().len();
    let variables = task.system.as_system().vars();
    if count != variables as usize {
        return Err(LineFault::WrongCount(count as u64, variables));
    }
    task.add(row)?;
    Ok(Some(task))
}
