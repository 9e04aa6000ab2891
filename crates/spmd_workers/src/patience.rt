// How long a worker polls before it ends its leg.

ghost use Rattle.std.specs.Prelude.{◌≡◌, ◌+◌, ◌%◌, ◌^◌, ◌≤◌, ◌<◌, true, false};

use crossbeam_utils::CachePadded;
use crossbeam_utils::atomic::AtomicCell;
use std::{hint, thread};

// The least and the most misses in a row for which a worker polls, and those for which it polls
// at first.
const LEAST: u32 = 1_000;

const MOST: u32 = 100_000;

const FIRST: u32 = 20_000;

// So many misses in a row it only spins.
const SPINS: u32 = 100;

// For how many misses in a row a worker polls at most where not all others have begun their legs: long
// enough for as many threads as there may be to be made.
const UNBEGUN: u32 = 4_000;

// What the legs of a round see of one another. It only ends waits sooner.
#[derive(Drop)]
pub(crate) struct Round {
    // the leg up to which waits are given up soon, 0 where none is
    given_up: CachePadded<AtomicCell<u64>>,
    // how many legs have begun, and how many will have once all workers of the round have begun theirs
    begun: CachePadded<AtomicCell<u64>>,
    all: CachePadded<AtomicCell<u64>>,
}

impl Round {
    // No leg has begun.
    pub(crate) fn new() -> Self {
        Round {
            given_up: CachePadded::new(AtomicCell::new(0)),
            begun: CachePadded::new(AtomicCell::new(0)),
            all: CachePadded::new(AtomicCell::new(0)),
        }
    }

    // In front of a leg of each of so many workers.
    pub(crate) fn begin(&self, workers: u64) {
        self.all.store(self.begun.load().wrapping_add(workers));
    }

    // Whether somebody hasn't begun his leg.
    fn is_beginning(&self) -> bool {
        self.begun.load() < self.all.load()
    }
}

// So many misses in a row end a leg. Where somebody else answers at last, others run beside it, and
// it polls longer from then on; where nobody did, perhaps nobody does. Who has given up does nothing
// more in this leg, so from then on the others end theirs after the least misses, and soon: on a busy
// machine a yield takes milliseconds. Where somebody hadn't begun his leg by then, the system grants
// fewer threads than there are workers, and he waits for the thread of the one who polls: so from then
// on all waits are given up soon, until there have been twice as many legs.
#[derive(Clone, Copy)]
pub(crate) struct Patience<'a> {
    pub(crate) misses: u32,
    // how many legs have begun
    pub(crate) legs: u64,
    pub(crate) round: &'a Round,
    ghost low: { 1000 ≤ misses },
    ghost high: { misses ≤ 100000 },
}

impl<'a> Patience<'a> {
    pub(crate) const fn new(round: &'a Round) -> Self
        ensures { result.legs ≡ 0 }
    {
        Patience {
            misses: FIRST,
            legs: 0,
            round,
        }
    }

    // In front of the next leg.
    pub(crate) fn next_leg(self) -> Self
        ensures { result.legs ≡ (self.entry.legs + 1) % 2 ^ 64 }
    {
        self.round.begun.fetch_add(1);
        Patience {
            misses: self.misses,
            legs: self.legs.wrapping_add(1),
            round: self.round,
        }
    }

    // Whether so many misses in a row are too many; where they aren't, there is a pause.
    pub(crate) fn ends(self, misses: u32) -> bool
        ensures least { result ≡ true → 1000 ≤ misses }
        ensures most { result ≡ false → misses < 100000 }
    {
        let hopeless = self.legs <= self.round.given_up.load();
        let most = if hopeless {
            LEAST
        } else if self.round.is_beginning() {
            self.misses.min(UNBEGUN)
        } else {
            self.misses
        };
        if most <= misses {
            return true;
        }
        if hopeless || misses <= SPINS {
            hint::spin_loop();
        } else {
            thread::yield_now();
        }
        false
    }

    // Behind a wait that came, after so many misses.
    pub(crate) fn behind_wait(self, misses: u32) -> Self
        ensures { result.legs ≡ self.entry.legs }
    {
        if misses == 0 {
            return self;
        }
        Patience {
            misses: (2 * self.misses).min(MOST),
            legs: self.legs,
            round: self.round,
        }
    }

    // Behind a wait that was given up, which all may see.
    pub(crate) fn behind_leg(self) -> Self
        ensures { result.legs ≡ self.entry.legs }
    {
        let until = if self.round.is_beginning() {
            self.legs.saturating_mul(2)
        } else {
            self.legs
        };
        self.round
            .given_up
            .store(until.max(self.round.given_up.load()));
        Patience {
            misses: (self.misses / 8).max(LEAST),
            legs: self.legs,
            round: self.round,
        }
    }
}
