// What holds of lists and faults themselves.

ghost use Rattle.std.specs.Prelude.{ℕ, List, Some, ◌≡◌, ◌⊎◌};
ghost use Rattle.f77_lines.specs.declared.refusal.LineRefusal.{LineRefusal};
ghost use Rattle.f77_lines.specs.Statements.{Entry};
ghost use Rattle.f77_lines.specs.Listing.{Lists, EndsWithEnd, first_line_fault};

/// Bytes list at most one list of statements and directives, with one place of the rest.
pub fn one_listing()
    ensures { (bytes : List ℕ) (a b : List Entry) (m n : ℕ) → Lists bytes a m → Lists bytes b n
        → (a ≡ b) × (m ≡ n) }
{}

/// Bytes that list statements and directives have no first fault, and any others have one.
pub fn listing_or_fault()
    ensures either { (bytes : List ℕ) → ((entries : List Entry) × (rest : ℕ)
        × Lists bytes entries rest) ⊎ ((fault : LineRefusal) × (first_line_fault bytes
        ≡ Some fault)) }
    ensures not_both { (bytes : List ℕ) (entries : List Entry) (rest : ℕ) (fault : LineRefusal)
        → Lists bytes entries rest → first_line_fault bytes ≡ Some fault → ⊥ }
{}

/// The last entry of a list is END.
pub fn end_is_listed_last()
    ensures { (bytes : List ℕ) (entries : List Entry) (rest : ℕ) → Lists bytes entries rest
        → EndsWithEnd entries }
{}
