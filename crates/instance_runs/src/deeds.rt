// What an instance does to whatever keeps the cells.

ghost use Rattle.std.specs.Prelude.{ℕ, ℤ, List, [], ◌∷◌, ◌++◌, ◌≡◌};
ghost use Rattle.spmd_model.specs.Deeds.{Deed, loading, storing, printing};

/// Whatever keeps the cells for one processor that runs its instances: it loads and stores them,
/// each where that is what the processor does next.
pub trait Deeds {
    // What is still to be done, in order.
    ghost left: { Self → List Deed };

    // What the loads since the last store or PRINT gave.
    ghost registers: { Self → List ℤ };

    // What the PRINTs so far have printed.
    ghost printed: { Self → List ℕ };

    // What stays as it is.
    ghost Kept: { Type 0 };

    ghost kept: { Self → Self.Kept };

    /// Loads the cell whose load comes next.
    fn load(&mut self, cell: u32) -> i64
        requires { (rest : List Deed) × (left self.old ≡ loading cell ∷ rest) }
        ensures left { left self.old ≡ loading cell ∷ left self.new }
        ensures registers { registers self.new ≡ registers self.old ++ result ∷ [] }
        ensures printed { printed self.new ≡ printed self.old }
        ensures kept { kept self.new ≡ kept self.old };

    /// Stores the value into the cell whose store comes next.
    fn store(&mut self, cell: u32, value: i64)
        requires { (f : List ℤ → ℤ) × (rest : List Deed) × (left self.old ≡ storing cell f ∷ rest)
            × (value ≡ f (registers self.old)) }
        ensures left { (f : List ℤ → ℤ) × (left self.old ≡ storing cell f ∷ left self.new) }
        ensures registers { registers self.new ≡ [] }
        ensures printed { printed self.new ≡ printed self.old }
        ensures kept { kept self.new ≡ kept self.old };

    /// Past the PRINT that comes next, whose line is printed.
    fn print(&mut self)
        requires { (line : List ℤ → List ℕ) × (rest : List Deed)
            × (left self.old ≡ printing line ∷ rest) }
        ensures left { (line : List ℤ → List ℕ) × (left self.old ≡ printing line ∷ left self.new)
            × (printed self.new ≡ printed self.old ++ line (registers self.old)) }
        ensures registers { registers self.new ≡ [] }
        ensures kept { kept self.new ≡ kept self.old };
}
