ghost use Rattle.std.specs.Prelude.{◌≡◌, ℕ, ◌<◌, ◌≤◌, length, take, None, IfOk, OnOk, OnErr};
ghost use Rattle.std.specs.Io.KnownBytes.{Appends, Consumes, IsAtEnd, Keeps};
ghost use Rattle.spmd_ports.specs.Counts.{Rose, raised};
ghost use Rattle.spmd_ports.specs.StandardSink.{StandardSink, answered};

use crate::errors::Failed;
use crate::sinks::Sink;
use crate::sources::Source;
use std::io::{Read, Stdin, Stdout, Write};
use std::marker::Model;

/// Standard input. It tells nothing of content, and each error of a read counts as a fault.
#[derive(Debug, Drop)]
pub struct StdSource {
    input: Stdin,
    faults: u64,
}

// A caller sees the count of faults.
impl Model for StdSource {
    ghost Value = { ℕ };

    ghost view = { λ s. s.faults };
}

impl StdSource {
    /// Standard input, as `rt.stdin()` gives it, with no fault so far.
    pub fn new(input: Stdin) -> StdSource
        ensures { result ≡ 0 }
    {
        StdSource { input, faults: 0 }
    }
}

impl Source for StdSource {
    ghost left = { λ _. None };

    ghost faults = { λ count. count };

    fn read(&mut self, into: &mut [u8]) -> Result<usize, Failed>
        ensures within { IfOk result (λ n. n ≤ length into.new) }
        ensures fault { OnErr result (self.new ≡ raised self.old) }
        ensures given { OnOk result (self.new ≡ self.old) }
    {
        match self.input.read(into) {
            Ok(count) => Ok(count),
            Err(_) => {
                self.faults = self.faults.saturating_add(1);
                Err(Failed)
            }
        }
    }
}

/// Standard output. It tells nothing of content, and each error of a write counts as a fault.
#[derive(Debug, Drop)]
pub struct StdSink {
    output: Stdout,
    faults: u64,
    empties: u64,
}

impl Model for StdSink {
    ghost Value = { StandardSink };

    ghost view = { λ s. record { faults = s.faults; empties = s.empties } };
}

impl StdSink {
    /// Standard output, as `rt.stdout()` gives it, with no fault and no empty answer so far.
    pub fn new(output: Stdout) -> StdSink
        ensures { result ≡ record { faults = 0; empties = 0 } }
    {
        StdSink {
            output,
            faults: 0,
            empties: 0,
        }
    }
}

impl Sink for StdSink {
    ghost written = { λ _. None };

    ghost faults = { λ s. s.faults };

    ghost empties = { λ s. s.empties };

    fn write(&mut self, from: &[u8]) -> Result<usize, Failed>
        ensures within { IfOk result (λ n. n ≤ length from.now) }
        ensures fault { OnErr result (self.new ≡ record self.old {
          faults = raised self.old.faults;
        }) }
        ensures taken { IfOk result (λ n. self.new ≡ answered self.old n (length from.now)) }
    {
        match self.output.write(from) {
            Ok(count) => {
                if count == 0 && !from.is_empty() {
                    self.empties = self.empties.saturating_add(1);
                }
                Ok(count)
            }
            Err(_) => {
                self.faults = self.faults.saturating_add(1);
                Err(Failed)
            }
        }
    }
}
