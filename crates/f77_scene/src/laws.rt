// What holds of programs and faults themselves.

ghost use Rattle.std.specs.Prelude.{ℕ, ℤ, List, Some, ◌≡◌, ◌⊎◌, ◌↔◌};
ghost use Rattle.f77_forms.specs.Form.{StatementForm};
ghost use Rattle.f77_forms.specs.Statements.{statement_at};
ghost use Rattle.f77_forms.specs.Text.{HasForm};
ghost use Rattle.nest_tree.specs.Tree.{Tree};
ghost use Rattle.f77_scene.specs.Fault.{Refusal};
ghost use Rattle.f77_scene.specs.Reading.{Reads, first_fault};

/// Bytes and settings stand for at most one program.
pub fn one_program()
    ensures { (bytes : List ℕ) (settings : List (List ℕ × ℤ)) (p q : Tree) → Reads bytes settings p
        → Reads bytes settings q → p ≡ q }
{}

/// Bytes and settings that stand for a program have no first fault, and any others have one.
pub fn program_or_fault()
    ensures either { (bytes : List ℕ) (settings : List (List ℕ × ℤ))
        → ((program : Tree) × Reads bytes settings program) ⊎ ((refusal : Refusal)
        × (first_fault bytes settings ≡ Some refusal)) }
    ensures not_both { (bytes : List ℕ) (settings : List (List ℕ × ℤ)) (program : Tree)
        (refusal : Refusal) → Reads bytes settings program → first_fault bytes settings
        ≡ Some refusal → ⊥ }
{}

/// The form by which a statement is gone over is the one that its text has; where there is none, the text has none.
pub fn form_is_its_own()
    ensures { (text : List ℕ) (f : StatementForm) → (statement_at text ≡ Some f) ↔ HasForm text f }
{}
