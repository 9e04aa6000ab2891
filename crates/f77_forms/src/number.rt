// Numbers as they are written.

ghost use Rattle.std.specs.Prelude.{◌≡◌, ◌≤◌};
ghost use Rattle.f77_forms.specs.Characters.{decimal};
ghost use Rattle.f77_forms.specs.Reading.{Gives, number_at};

use crate::characters::is_digit;
use crate::fault::Fault;
use std::marker::Model;

/// The greatest number that a source may have.
const GREATEST: u64 = 9223372036854775807;

/// A number from 0 to 9223372036854775807, with how many digits it is written, leading zeros
/// counted. Contracts see its digits.
#[derive(Drop)]
pub struct Number {
    value: u64,
    digits: usize,
}

impl Model for Number {
    ghost use Rattle.std.specs.Prelude.{ℕ, List, ◌≡◌, ◌≤◌};
    ghost use Rattle.f77_forms.specs.Characters.{decimal, digits_of};

    ghost Value = { List ℕ };

    ghost view = { λ n. digits_of n.digits n.value };

    ghost invariant = { λ n. (decimal (digits_of n.digits n.value) ≡ n.value)
        × (n.value ≤ 9223372036854775807) };
}

impl Number {
    /// Its value.
    pub fn value(&self) -> u64
        ensures value { result ≡ decimal self.now }
        ensures within { result ≤ 9223372036854775807 }
    {
        self.value
    }
}

/// The number that digits stand for.
#[tactic(auto, unfolding(crate::specs::Reading::number_from))]
pub fn number_of(text: &[u8]) -> Result<Number, Fault>
    ensures { Gives (λ n. n) result (number_at text.now) }
{
    if text.is_empty() {
        return Err(Fault::NoForm);
    }
    let mut value: u64 = 0;
    for byte in text {
        if !is_digit(*byte) {
            return Err(Fault::NoForm);
        }
        let digit = u64::from(*byte - b'0');
        if value > (GREATEST - digit) / 10 {
            return Err(Fault::NoForm);
        }
        value = 10 * value + digit;
    }
    Ok(Number {
        value,
        digits: text.len(),
    })
}
