// What holds of forms and texts themselves.

ghost use Rattle.std.specs.Prelude.{ℕ, List, ◌≡◌, ◌⊎◌};
ghost use Rattle.f77_forms.specs.Answer.{IsRefused};
ghost use Rattle.f77_forms.specs.Form.{StatementForm};
ghost use Rattle.f77_forms.specs.Text.{HasForm};
ghost use Rattle.f77_forms.specs.declared.fault.TextFault.{TextFault};

/// A text has at most one form.
pub fn one_form()
    ensures { (text : List ℕ) (f g : StatementForm) → HasForm text f → HasForm text g → f ≡ g }
{}

/// A text that has a form has no fault, and any other has one.
pub fn form_or_fault()
    ensures either { (text : List ℕ) → ((f : StatementForm) × HasForm text f) ⊎ ((fault : TextFault)
        × IsRefused text fault) }
    ensures not_both { (text : List ℕ) (f : StatementForm) (fault : TextFault) → HasForm text f
        → IsRefused text fault → ⊥ }
    ensures one_fault { (text : List ℕ) (a b : TextFault) → IsRefused text a → IsRefused text b → a
        ≡ b }
{}
