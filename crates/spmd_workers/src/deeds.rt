// What an instance does: in place of own scalars' cells over the processor's own, and else over the
// words that all workers share.

ghost use Rattle.std.specs.Prelude.{◌≡◌, ◌<◌};
ghost use Rattle.std.specs.Coded.{Coded-set};
ghost use Rattle.turns.specs.TurnsLeft.{turns_place};
ghost use Rattle.fork_join.specs.SeenDeeds.{FindsOwn};
ghost use Rattle.shared_words.specs.Codes.{home_code};
ghost use Rattle.shared_words.specs.Homes.{protocol_at};
ghost use Rattle.spmd_workers.specs.Places.{plan_at, tree_at};

use crate::laws::laws_of;
use fork_join::Places;
use instance_runs::{Deeds, Progress};
use own_cells::{OWN_PLACES, OwnCells};
use shared_words::{CellSeat, Cells};
use std::marker::PhantomData;
use std::snapshot::Snapshot;
use turns::Turns;

// The cells of all, through one processor's seat, and those that it has for the own scalars of the
// phase, which it looks for in a way that fits the phase. Proofs alone see the turns that it had left
// in front of the first deed, its seat there, and how many deeds are done since.
#[derive(Drop)]
pub(crate) struct PhaseDeeds<'b, 's, 'o, 't, 'c, 'a, P: Places> {
    pub(crate) cells: &'b Cells<'c>,
    pub(crate) seat: &'s mut CellSeat,
    pub(crate) own: &'o mut [i64; OWN_PLACES],
    pub(crate) scalars: &'t OwnCells,
    pub(crate) by: PhantomData<P>,
    pub(crate) turns: &'t Snapshot<Turns<'a>>,
    pub(crate) from: &'t Snapshot<CellSeat>,
    pub(crate) done: Progress,
    ghost same_table: { seat.now.home
        ≡ cells.now } by { Coded-set home_code seat.now.home cells.now },
    ghost worker: { seat.now.processor < (protocol_at seat.now.home).workers },
    ghost finds: { ∥ FindsOwn (tree_at seat.now.home) (plan_at seat.now.home)
        (turns_place turns.now.value) (P.Fits scalars.now) ∥₁ },
}

impl<P: Places> Deeds for PhaseDeeds<'_, '_, '_, '_, '_, '_, P> {
    ghost use Rattle.std.specs.Prelude.{ℕ, ◌+◌};
    ghost use Rattle.shared_words.specs.Homes.{CellView, Home};
    ghost use Rattle.turns.specs.declared.turns.Turns.{Turns};
    ghost use Rattle.spmd_workers.specs.Places.{left_seen, place_of, printed_behind, registers_behind};

    ghost left = { λ d. left_seen d.turns.now.value d.from.now.value d.seat.now d.own.now
        (place_of d.seat.now d.turns.now.value + d.done.done) };

    ghost registers = { λ d. registers_behind d.seat.now (place_of d.seat.now d.turns.now.value
        + d.done.done) };

    ghost printed = { λ d. printed_behind d.seat.now (place_of d.seat.now d.turns.now.value
        + d.done.done) };

    ghost Kept = { ℕ × (ℕ × (Home × (Turns × (Home × (ℕ × CellView))))) };

    ghost kept = { λ d. (
      d.seat.ghost_name,
      (
        d.own.ghost_name,
        (
          d.cells.now,
          (d.turns.now.value, (d.seat.now.home, (d.seat.now.processor, d.from.now.value))),
        ),
      ),
    ) };

    #[inline(always)]
    fn load(&mut self, cell: u32) -> i64 {
        laws_of(self.cells);
        let Some(place) = P::place_of(self.scalars, cell) else {
            let value = self.cells.load(&mut *self.seat, cell);
            self.done = self.done.further();
            return value;
        };
        self.done = self.done.further();
        self.own[place]
    }

    #[inline(always)]
    fn store(&mut self, cell: u32, value: i64) {
        laws_of(self.cells);
        let Some(place) = P::place_of(self.scalars, cell) else {
            self.cells.store(&mut *self.seat, cell, value);
            self.done = self.done.further();
            return;
        };
        self.done = self.done.further();
        self.own[place] = value;
    }

    fn print(&mut self) {
        laws_of(self.cells);
        self.done = self.done.further();
    }
}
