// What holds of sum scalars and private ones: there is nothing to call.

ghost use Rattle.std.specs.Prelude.{◌≡◌, ℕ, Contains, IsTrue, false};
ghost use Rattle.nest_tree.specs.Tree.{Statements};
ghost use Rattle.own_scalars.specs.OwnScalars.{is_private, is_sum, private_scalars, sum_scalars};

/// The lists of a loop's sum scalars and of its scalars that may be private have all of them.
#[tactic(auto, using(crate::proofs::OwnLaws::sums_there, crate::proofs::OwnLaws::privates_there))]
pub fn lists_have_all()
    ensures sums { (body : Statements) (v : ℕ) → IsTrue (is_sum v body)
        → Contains (sum_scalars body) v }
    ensures privates { (body : Statements) (v : ℕ) → IsTrue (is_private v body)
        → Contains (private_scalars body) v }
{}

/// A sum scalar of a loop may not be private in it: its first access is a load.
#[tactic(auto, using(crate::proofs::OwnLaws::sum_private))]
pub fn sums_are_not_private()
    ensures { (body : Statements) (v : ℕ) → IsTrue (is_sum v body) → is_private v body ≡ false }
{}
