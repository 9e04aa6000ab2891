// A table at its end.

ghost use Rattle.std.specs.Prelude.{◌≡◌, ◌≤◌, map, take, vec_len};
ghost use Rattle.std.specs.Mem.Slots.{IsFull, slots_items, slots_len};
ghost use Rattle.shared_words.specs.Ends.{HasEnded, IsLast};
ghost use Rattle.shared_words.specs.Homes.{plan_given};
ghost use Rattle.shared_words.specs.Words.{word_value};

use crate::cells::MainSeat;
use atomic_table::Closed as Words;
use std::alloc::Global;
use std::marker::Model;

/// What a table leaves: its program, its plan and its style, that the seats of all processors were
/// taken in at their ends, and the sequential program's last memory.
#[derive(Drop)]
pub struct Closed {
    pub(crate) seat: MainSeat,
    pub(crate) workers: u32,
    pub(crate) memory: Vec<i64>,
}

impl Model for Closed {
    ghost use Rattle.std.specs.Prelude.{◌≡◌};
    ghost use Rattle.shared_words.specs.Ends.{End, HasEnded, IsLast};
    ghost use Rattle.shared_words.specs.Homes.{plan_given};
    ghost use Rattle.shared_words.specs.Codes.{end_code};

    ghost Value = { End };

    ghost coded = { end_code };

    ghost view = { λ c.
        record { given = c.seat.home.given; stages = c.seat.stages; memory = c.memory.items } };

    ghost invariant = { λ c. (c.workers ≡ (plan_given c.seat.home.given).workers)
        × HasEnded
        (record { given = c.seat.home.given; stages = c.seat.stages; memory = c.memory.items })
        × IsLast
        (record { given = c.seat.home.given; stages = c.seat.stages; memory = c.memory.items }) };
}

/// That a program was run under a plan in a style, its acts on shared words done to their end.
#[derive(Drop)]
pub struct Receipt {
    closed: Closed,
}

impl Model for Receipt {
    ghost use Rattle.shared_words.specs.Ends.{End};
    ghost use Rattle.shared_words.specs.Codes.{end_code};

    ghost Value = { End };

    ghost coded = { end_code };

    ghost view = { λ r. r.closed };
}

impl Closed {
    /// The last memory, by cells.
    pub fn memory(&self) -> &[i64]
        ensures memory { result.now ≡ self.now.memory }
        ensures ended { HasEnded self.now }
        ensures last { IsLast self.now }
    {
        self.memory.as_slice()
    }

    /// The receipt of this program, plan, style and memory, and of these ends.
    pub fn into_receipt(self) -> Receipt
        ensures { result ≡ self }
    {
        Receipt { closed: self }
    }
}

impl Receipt {
    /// The plan's workers.
    pub fn workers(&self) -> u32
        ensures { result ≡ (plan_given self.now.given).workers }
    {
        self.closed.workers
    }

    /// The last memory, by cells.
    pub fn memory(&self) -> &[i64]
        ensures memory { result.now ≡ self.now.memory }
        ensures ended { HasEnded self.now }
        ensures last { IsLast self.now }
    {
        self.closed.memory()
    }
}

// The values of the first words, as many as there is room for.
pub(crate) fn read_words(words: &Words<u8, Global>, into: &mut Vec<i64>)
    requires full { IsFull words.now.words }
    requires room { vec_len into.old ≤ slots_len words.now.words }
    ensures { into.new.items
        ≡ map word_value (take (vec_len into.old) (slots_items words.now.words)) }
{
    let count = into.len();
    for cell in 0..count {
        into[cell] = words.word(cell).cast_signed();
    }
}
