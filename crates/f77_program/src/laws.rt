// What holds of the definitions themselves.

ghost use Rattle.std.specs.Prelude.{ℕ, ◌≡◌};
ghost use Rattle.f77_forms.specs.Form.{StatementForm};
ghost use Rattle.f77_scene.specs.Behind.{behind};
ghost use Rattle.f77_scene.specs.Scene.{Given, Scene};
ghost use Rattle.f77_program.specs.Judged.{evaluated};
ghost use Rattle.f77_program.specs.Passed.{passed};

/// What `fault_in` and then `pass_statement` know is what the definitions know behind a statement.
pub fn passed_is_behind()
    ensures { (given : Given) (s : Scene) (label : ℕ) (f : StatementForm)
        → passed (evaluated given s f) label f ≡ behind given s label f }
{}
