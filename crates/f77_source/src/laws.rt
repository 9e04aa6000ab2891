// What holds of programs that are read.

ghost use Rattle.std.specs.Prelude.{ℕ, ℤ, List, true, ◌≡◌, ◌<◌};
ghost use Rattle.std.specs.List.{list_all};
ghost use Rattle.nest_tree.specs.Tree.{Tree};
ghost use Rattle.nest_tree.specs.WellFormed.{IsWellFormed, is_good_constant, is_good_declaration, is_value, most_statements, statement_count};
ghost use Rattle.f77_scene.specs.Reading.{Reads};

/// The variables of a program that bytes stand for are declared well: an array has one to three
/// dimensions, of which it is distributed along one, and its bounds are within the limit, no lower
/// one past its upper one.
pub fn variables_are_good()
    ensures { (bytes : List ℕ) (settings : List (List ℕ × ℤ)) (program : Tree)
        → Reads bytes settings program → list_all is_good_declaration program.variables ≡ true }
{}

/// The tree of a program that bytes stand for has fewer statements than a source may have, of
/// which END is one.
pub fn statements_are_few()
    ensures { (bytes : List ℕ) (settings : List (List ℕ × ℤ)) (program : Tree)
        → Reads bytes settings program → statement_count program.items < most_statements }
{}

/// The named constants of a program that bytes stand for have values of 64 bits, where the
/// settings have.
pub fn constants_are_values()
    ensures { (bytes : List ℕ) (settings : List (List ℕ × ℤ)) (program : Tree)
        → list_all (λ s. is_value s.1) settings ≡ true → Reads bytes settings program
        → list_all is_good_constant program.params ≡ true }
{}

/// The program that bytes stand for is well formed, where the settings have values of 64 bits.
pub fn programs_are_well_formed()
    ensures { (bytes : List ℕ) (settings : List (List ℕ × ℤ)) (program : Tree)
        → list_all (λ s. is_value s.1) settings ≡ true → Reads bytes settings program
        → IsWellFormed program }
{}
