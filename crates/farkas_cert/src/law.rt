// What a good certificate is good for.

ghost use Rattle.std.specs.Prelude.{List, ℤ};
ghost use Rattle.farkas_cert.specs.declared.certificate.Certificate.{Certificate};
ghost use Rattle.farkas_cert.specs.Inequalities.{Inequalities, IsWholeSolution};
ghost use Rattle.farkas_cert.specs.Good.{IsGood};

/// A system with a good certificate has no whole solution (Farkas' lemma in the direction that
/// needs no search, with the rounding of Gomory and Chvatal). It is a law: there is nothing to
/// run.
#[tactic(auto, using(crate::proofs::Exclusion::good_excludes))]
pub fn good_certificates_exclude_whole_solutions()
    ensures { (system : Inequalities) (certificate : Certificate) (x : List ℤ)
        → IsGood system certificate → IsWholeSolution system x → ⊥ }
{}
