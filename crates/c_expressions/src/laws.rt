// Laws of what is written: there is nothing to call.

ghost use Rattle.std.specs.Prelude.{◌≡◌, ℕ, ◌<◌, ◌^◌, ℤ, pos, IsTrue, List, length, map};
ghost use Rattle.std.specs.List.{list_all};
ghost use Rattle.nest_tree.specs.Form.{Form, form_value};
ghost use Rattle.nest_tree.specs.Layout.{are_inside, element_count, element_place};
ghost use Rattle.nest_tree.specs.WellFormed.{is_good_dimension};
ghost use Rattle.c_expressions.specs.CExpressions.{CExpression};
ghost use Rattle.c_expressions.specs.Grammar.{Reads, sum};
ghost use Rattle.c_expressions.specs.Reader.{read};
ghost use Rattle.c_expressions.specs.Sums.{HasLoops, Values, form_at, place_at};

/// The reader reads each text as what it reads as by the grammar.
pub fn read_back()
    ensures { (text : List ℕ) (a : CExpression) → Reads sum text a → read text ≡ a }
{}

/// No text reads as two expressions.
pub fn one_reading()
    ensures { (text : List ℕ) (a b : CExpression) → Reads sum text a → Reads sum text b → a ≡ b }
{}

/// Where names have the values of loops, a form that is written has the program's value, and an
/// element whose subscripts are in range has the program's place, in an array of fewer than 2^63.
pub fn forms_are_the_programs()
    ensures form { (params loops : List ℤ) (f : Form) (v : Values) → HasLoops v loops
        → form_at params f v ≡ form_value f loops params }
    ensures place { (params loops : List ℤ) (fs : List Form) (bounds : List (ℤ × ℤ)) (v : Values)
        → HasLoops v loops → length fs ≡ length bounds → IsTrue (list_all is_good_dimension bounds)
        → IsTrue (are_inside bounds (map (λ f. form_value f loops params) fs))
        → element_count bounds < 2 ^ 63 → place_at params (pos 1) fs bounds v
        ≡ pos (element_place bounds (map (λ f. form_value f loops params) fs)) }
{}
