ghost use Rattle.std.specs.Prelude.{◌≡◌, ℕ, ◌<◌, ◌≤◌, List, length, take, IfOk, OnOk, OnErr};
ghost use Rattle.std.specs.Io.KnownBytes.{Appends, Keeps};
ghost use Rattle.std.specs.declared.option.Option.{Option};
ghost use Rattle.spmd_ports.specs.Counts.{Rose};

use crate::errors::Failed;

/// Where bytes go.
///
/// A sink may tell what was written, as one over memory does. It counts its faults and its empty
/// answers, each from 0 to 2^64 - 1, where the count stands.
pub trait Sink {
    // What was written, where the sink tells that.
    ghost written: { Self → Option (List ℕ) };

    // The faults so far.
    ghost faults: { Self → ℕ };

    // The empty answers so far: calls that took 0 bytes of a nonempty piece.
    ghost empties: { Self → ℕ };

    /// Writes bytes from the front of `from`, and answers how many it took.
    ///
    /// # Errors
    ///
    /// [`Failed`] comes only where the count of faults rises in this call. Nothing was written
    /// then.
    fn write(&mut self, from: &[u8]) -> Result<usize, Failed>
        ensures within { IfOk result (λ n. n ≤ length from.now) }

        // A fault is counted, and nothing else is.
        ensures fault_is_counted { OnErr result (Rose (faults self.old) (faults self.new)) }
        ensures only_faults_are { OnOk result (faults self.new ≡ faults self.old) }
        ensures never_falls { faults self.old ≤ faults self.new }

        // 0 bytes taken of a nonempty piece raise the other count, and nothing else does.
        ensures empty_is_counted { IfOk result (λ n. n ≡ 0 → 0 < length from.now →
            Rose (empties self.old) (empties self.new)) }
        ensures bytes_are_no_empty { IfOk result (λ n. 0 < n → empties self.new
            ≡ empties self.old) }
        ensures nothing_is_no_empty { length from.now ≡ 0 → empties self.new ≡ empties self.old }
        ensures fault_is_no_empty { OnErr result (empties self.new ≡ empties self.old) }
        ensures empties_never_fall { empties self.old ≤ empties self.new }

        // The bytes taken are the front of the piece, and stand behind what was written.
        ensures appended { IfOk result (λ n. Appends (written self.old) (written self.new)
            (take n from.now)) }
        ensures fault_writes_nothing { OnErr result (Keeps (written self.old) (written self.new)) };
}
