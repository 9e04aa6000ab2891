// Polls of a seat, until what is awaited has come or patience is at its end.

ghost use Rattle.std.specs.Prelude.{◌≡◌, ◌<◌, ◌-◌, IfErr, IfOk};
ghost use Rattle.shared_words.specs.Calls.{AwaitsNext, AwaitsSignalNext, GathersNext, all_arrivals};
ghost use Rattle.shared_words.specs.Homes.{gone, through};
ghost use Rattle.spmd_workers.specs.Legs.{HasMissed};

use crate::patience::Patience;
use shared_words::{CellSeat, Cells, Poll};

// A processor, and the number that is awaited of its counter or its signal.
#[derive(Clone, Copy)]
pub(crate) struct Awaited {
    pub(crate) on: u32,
    pub(crate) wanted: u64,
}

// Polls the counter of another: how many polls found too little in front of the one that found
// enough; or what the last one found, where there were too many.
pub(crate) fn poll_until(
    cells: &Cells<'_>,
    seat: &mut CellSeat,
    awaited: Awaited,
    patience: Patience<'_>,
) -> Result<u32, u64>
    requires own { seat.old.home ≡ cells.now }
    requires next { AwaitsNext seat.old awaited.on awaited.wanted }
    ensures came { IfOk result (λ misses. seat.new ≡ gone seat.old) }
    ensures low { IfErr result (λ seen. seen < awaited.wanted) }
    ensures missed { IfErr result (λ seen. HasMissed seat.old seat.new seen) }
{
    let mut misses = 0;
    while let Poll::NotYet { seen } = cells.poll(seat, awaited.on, awaited.wanted) {
        misses += 1;
        if patience.ends(misses) {
            return Err(seen);
        }
    }
    Ok(misses)
}

// Polls the signal of another: the same.
pub(crate) fn poll_signal_until(
    cells: &Cells<'_>,
    seat: &mut CellSeat,
    awaited: Awaited,
    patience: Patience<'_>,
) -> Result<u32, u64>
    requires own { seat.old.home ≡ cells.now }
    requires next { AwaitsSignalNext seat.old awaited.on awaited.wanted }
    ensures came { IfOk result (λ misses. seat.new ≡ gone seat.old) }
    ensures low { IfErr result (λ seen. seen < awaited.wanted) }
    ensures missed { IfErr result (λ seen. HasMissed seat.old seat.new seen) }
{
    let mut misses = 0;
    while let Poll::NotYet { seen } = cells.poll_signal(seat, awaited.on, awaited.wanted) {
        misses += 1;
        if patience.ends(misses) {
            return Err(seen);
        }
    }
    Ok(misses)
}

// Polls the arrivals of all at the barrier in front of a phase: the same.
pub(crate) fn poll_arrivals_until(
    cells: &Cells<'_>,
    seat: &mut CellSeat,
    phase: u64,
    patience: Patience<'_>,
) -> Result<u32, u64>
    requires own { seat.old.home ≡ cells.now }
    requires next { GathersNext seat.old (phase - 1) }
    ensures came { IfOk result (λ misses. seat.new ≡ through seat.old) }
    ensures low { IfErr result (λ seen. seen < all_arrivals seat.old) }
    ensures missed { IfErr result (λ seen. HasMissed seat.old seat.new seen) }
{
    let mut misses = 0;
    while let Poll::NotYet { seen } = cells.poll_arrivals(seat, phase) {
        misses += 1;
        if patience.ends(misses) {
            return Err(seen);
        }
    }
    Ok(misses)
}
