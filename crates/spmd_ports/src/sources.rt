ghost use Rattle.std.specs.Prelude.{◌≡◌, ℕ, ◌<◌, ◌≤◌, List, length, take, IfOk, OnOk, OnErr};
ghost use Rattle.std.specs.Io.KnownBytes.{Consumes, IsAtEnd, Keeps};
ghost use Rattle.std.specs.declared.option.Option.{Option};
ghost use Rattle.spmd_ports.specs.Counts.{Rose};

use crate::errors::Failed;

/// Where bytes come from.
///
/// A source may tell what is left to read, as one over memory does. It counts its faults, from
/// 0 to 2^64 - 1, where the count stands.
pub trait Source {
    // What is left to read, where the source tells that.
    ghost left: { Self → Option (List ℕ) };

    // The faults so far.
    ghost faults: { Self → ℕ };

    /// Reads at most `into.len()` bytes into the front of `into`, and answers how many. 0 bytes
    /// into a nonempty slice are the end.
    ///
    /// # Errors
    ///
    /// [`Failed`] comes only where the count of faults rises in this call. What `into` then holds
    /// is left open.
    fn read(&mut self, into: &mut [u8]) -> Result<usize, Failed>
        ensures within { IfOk result (λ n. n ≤ length into.new) }

        // A fault is counted, and nothing else is.
        ensures fault_is_counted { OnErr result (Rose (faults self.old) (faults self.new)) }
        ensures only_faults_are { OnOk result (faults self.new ≡ faults self.old) }
        ensures never_falls { faults self.old ≤ faults self.new }

        // The bytes given are the front of what was left, and the end is where nothing is.
        ensures front { IfOk result (λ n. Consumes (left self.old) (left self.new)
            (take n into.new)) }
        ensures end { IfOk result (λ n. n ≡ 0 → 0 < length into.new → IsAtEnd (left self.new)) }
        ensures fault_takes_nothing { OnErr result (Keeps (left self.old) (left self.new)) };
}
