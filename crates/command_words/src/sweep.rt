// Sweeps over the values of a named constant.

ghost use Rattle.std.specs.Prelude.{◌≡◌, IfOk, option_map};
ghost use Rattle.f77_source.specs.Sources.{setting_of};
ghost use Rattle.command_words.specs.Sweeps.{sweep_at, sweep_between as spanned, sweep_of};

use crate::settings::{setting_in, value_in};
use f77_source::Setting;
use std::alloc::{AllocError, Global};

// The most values of a sweep.
const MOST_VALUES: i128 = 1000;

/// A named constant with the values that it is to have: all from a lowest one to a highest one, at
/// least 1 and at most 1,000.
#[derive(Debug, Drop)]
pub struct Sweep {
    /// In capitals.
    pub name: Vec<u8>,
    pub low: i64,
    /// Not below `low`, and less than 1,000 above it.
    pub high: i64,
}

/// The sweep that a word writes, NAME=LOW:HIGH: a setting, `:`, and a value. The error is that
/// memory ran out.
pub fn sweep_in(alloc: Global, word: &str) -> Result<Option<Sweep>, AllocError>
    ensures { IfOk result (λ sweep. option_map sweep_of sweep ≡ sweep_at word.now) }
{
    let Some((front, high)) = word.split_once(':') else {
        return Ok(None);
    };
    match setting_in(alloc, front)? {
        Some(lowest) => Ok(sweep_to(lowest, high)),
        None => Ok(None),
    }
}

// From the value of a setting to the one that a word writes.
fn sweep_to(lowest: Setting, high: &str) -> Option<Sweep>
    ensures { option_map sweep_of result ≡ spanned (setting_of lowest) high.now }
{
    let high = value_in(high)?;
    let low = lowest.value;
    if low <= high && high as i128 - (low as i128) < MOST_VALUES {
        Some(Sweep {
            name: lowest.name,
            low,
            high,
        })
    } else {
        None
    }
}
