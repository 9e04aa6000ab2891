// Congruences modulo the number of processors.

ghost use Rattle.std.specs.Prelude.{◌≡◌, ◌<◌, ◌≤◌, IfOk};
ghost use Rattle.nest_tree.specs.Layout.{count_of};
ghost use Rattle.thread_code.specs.Closed.{AreTurnings, IsTurningOf};
ghost use Rattle.thread_code.specs.Tables.{table_of};

use owner_partition::divisor_and_factor;
use std::alloc::{AllocError, Global};
use std::marker::Model;

/// How the places of a loop's trips, which rise by the same with each trip, come to one processor in
/// turn: the greatest common divisor of the rise and of the number of processors, a factor that takes
/// the rise to it, and how many trips it is from one of a processor's to its next.
#[derive(Clone, Copy, Debug, PartialEq, Eq)]
pub struct Turning {
    pub divisor: u32,
    pub factor: u32,
    pub stride: u32,
}

/// The turnings of all rises from 0 to below the number of processors. Contracts see the list.
#[derive(Drop)]
pub struct Turnings {
    by_rise: Vec<Turning>,
}

impl Model for Turnings {
    ghost use Rattle.std.specs.Prelude.{List};
    ghost use Rattle.thread_code.specs.declared.turnings.Turning.{Turning};

    ghost Value = { List Turning };

    ghost view = { λ t. t.by_rise.items };
}

impl Turnings {
    /// Those for so many processors. The error is that memory ran out.
    pub fn new(alloc: Global, workers: u32) -> Result<Self, AllocError>
        requires some { 1 ≤ workers }
        requires few { workers ≤ 64 }
        ensures { IfOk result (λ made. AreTurnings workers (table_of made)) }
    {
        let mut by_rise = Vec::new(alloc);
        for rise in 0..workers {
            by_rise.push(turning_of(rise, workers))?;
        }
        Ok(Turnings { by_rise })
    }

    /// The one of a rise from 0 to below the number of processors. There is none of another rise: it is
    /// answered with one processor's.
    pub fn at(&self, rise: i64) -> Turning
        ensures { result ≡ table_of self.now (count_of rise) }
    {
        let place = usize::try_from(rise).unwrap_or(0);
        match self.by_rise.get(place) {
            Some(turning) => *turning,
            None => Turning {
                divisor: 1,
                factor: 0,
                stride: 1,
            },
        }
    }
}

// The turning of a rise.
fn turning_of(rise: u32, workers: u32) -> Turning
    requires rise { rise < workers }
    requires few { workers ≤ 64 }
    ensures { IsTurningOf workers rise result }
{
    let (divisor, factor) = divisor_and_factor(u64::from(rise), u64::from(workers));
    let divisor = divisor as u32;
    Turning {
        divisor,
        factor: factor as u32,
        stride: workers / divisor,
    }
}
