//! Laws of value arithmetic: there is nothing to run.

ghost use Rattle.std.specs.Prelude.{ℤ, List, [], ◌∷◌, ◌≡◌, ◌≤ℤ◌, ◌<◌, pos, negsuc, ◌+ℤ◌, ◌-ℤ◌, ◌*ℤ◌, neg_ℤ, unsigned_abs, FitsSigned, All, Contains};
ghost use Rattle.std.specs.Int.{w64};
ghost use Rattle.nest_tree.specs.Values.{wrapped, quotient};
ghost use Rattle.nest_model.specs.Meaning.{least, greatest};
ghost use Rattle.seq_meaning.specs.ValueLaws.{IsSameModulo, least_value, IsTruncated};

/// The value of a whole number lies between -2^63 and 2^63 - 1 and differs from the number by a
/// multiple of 2^64; a number in that range is its own value, and numbers that differ by a
/// multiple of 2^64 have the same value.
pub fn values_are_modulo_two_to_the_64()
    ensures within { (z : ℤ) → FitsSigned w64 (wrapped z) }
    ensures differs { (z : ℤ) → IsSameModulo (wrapped z) z }
    ensures kept { (z : ℤ) → FitsSigned w64 z → wrapped z ≡ z }
    ensures same { (a b : ℤ) → IsSameModulo a b → wrapped a ≡ wrapped b }
{}

/// Sums, differences, negatives and products of values are those of the whole numbers modulo
/// 2^64: to take values on the way changes nothing.
pub fn arithmetic_is_modulo_two_to_the_64()
    ensures sums { (a b : ℤ) → wrapped (wrapped a +ℤ wrapped b) ≡ wrapped (a +ℤ b) }
    ensures differences { (a b : ℤ) → wrapped (wrapped a -ℤ wrapped b) ≡ wrapped (a -ℤ b) }
    ensures negatives { (a : ℤ) → wrapped (neg_ℤ (wrapped a)) ≡ wrapped (neg_ℤ a) }
    ensures products { (a b : ℤ) → wrapped (wrapped a *ℤ wrapped b) ≡ wrapped (a *ℤ b) }
{}

/// A value divided by another that is not 0 is truncated toward zero, but for the least value
/// divided by -1, which is itself.
pub fn quotients_are_truncated()
    ensures truncated { (a d : ℤ) → FitsSigned w64 a → 0 < unsigned_abs d
        → (a ≡ least_value → d ≡ negsuc 0 → ⊥) → IsTruncated a d (quotient a d) }
    ensures least_by_minus_one { quotient least_value (negsuc 0) ≡ least_value }
{}

/// MIN and MAX are one of their arguments' values, and none is less, or greater.
pub fn extremes_are_reached()
    ensures least_below { (x : ℤ) (rest : List ℤ) → All (λ y. least (x ∷ rest) ≤ℤ y) (x ∷ rest) }
    ensures least_among { (x : ℤ) (rest : List ℤ) → Contains (x ∷ rest) (least (x ∷ rest)) }
    ensures greatest_above { (x : ℤ) (rest : List ℤ)
        → All (λ y. y ≤ℤ greatest (x ∷ rest)) (x ∷ rest) }
    ensures greatest_among { (x : ℤ) (rest : List ℤ) → Contains (x ∷ rest) (greatest (x ∷ rest)) }
{}
