// What holds of the processors of a table: there is nothing to do.

ghost use Rattle.spmd_workers.specs.Held.{AreHeld};

use shared_words::Cells;
use spmd_model::{arrivals_in_styles, own_cells_in_styles, values_in_styles};
use turns::laws::turns_are_acts;

// The laws of the table's program under its plan in its style.
#[inline(always)]
pub(crate) fn laws_of(cells: &Cells<'_>)
    ensures { AreHeld cells.now }
{
    cells.laws();
    values_in_styles();
    own_cells_in_styles();
    arrivals_in_styles();
    turns_are_acts();
}
