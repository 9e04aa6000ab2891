// That a program was run by a plan.

ghost use Rattle.std.specs.Prelude.{◌≡◌};
ghost use Rattle.spmd_answer.specs.Ends.{HasEnded, memory_in};

use fork_join::Receipt as JoinReceipt;
use shared_words::Receipt as SpmdReceipt;
use spmd_machine::Receipt as CoreReceipt;

/// That a program was run by a plan: the receipt which the engine that ran it gives at the run's
/// end, and which nothing else makes.
#[derive(Drop)]
pub enum Receipt {
    /// Of the machine, whose processors had done all their acts.
    Core(CoreReceipt),
    /// Of workers that fork and join, behind the last phase.
    Join(JoinReceipt),
    /// Of workers that share words, whose seats were all taken in at their ends.
    Spmd(SpmdReceipt),
}

impl Receipt {
    /// The memory that the run left, by cells.
    pub fn memory(&self) -> &[i64]
        ensures memory { result.now ≡ memory_in self.now }
        ensures ended { HasEnded self.now }
    {
        match self {
            Receipt::Core(receipt) => receipt.memory(),
            Receipt::Join(receipt) => receipt.memory(),
            Receipt::Spmd(receipt) => receipt.memory(),
        }
    }
}
