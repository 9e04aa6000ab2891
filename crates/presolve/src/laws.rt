// Laws: what is found of a system without some columns or rows holds of the whole one.

ghost use Rattle.std.specs.Prelude.{◌≡◌, ◌↔◌, ◌≤◌, List, ℕ, ℤ, length};
ghost use Rattle.std.specs.Option.{option_map};
ghost use Rattle.farkas_cert.specs.declared.certificate.Certificate.{Certificate};
ghost use Rattle.farkas_cert.specs.declared.system.Row.{Row};
ghost use Rattle.farkas_cert.specs.Inequalities.{Inequalities, IsWholeSolution, IsRationalSolution};
ghost use Rattle.farkas_cert.specs.Fault.{first_fault};
ghost use Rattle.farkas_cert.specs.Good.{IsGood};
ghost use Rattle.presolve.specs.Columns.{IsZeroOutside, KeepsAll, kept, kept_row, spread, whole_fault, with_columns};
ghost use Rattle.presolve.specs.Presolution.{IsPresolved, Presolution, first_kept, with_last, with_row};
ghost use Rattle.presolve.specs.Rows.{KeepsLast, StepsNameKept, kept_certificate, renumbered, renumbered_fault, with_rows};

/// The first fault of a certificate is that for the system without columns that are 0 throughout.
pub fn faults_are_those_without_columns_of_zeros()
    ensures { (system : Inequalities) (keep : List ℕ) (certificate : Certificate)
        → KeepsAll keep system → first_fault system certificate
        ≡ option_map (whole_fault system.vars keep) (first_fault (with_columns keep system)
        certificate) }
{}

/// A certificate is good for a system exactly where it is for the one without such columns.
pub fn good_certificates_are_those_without_columns_of_zeros()
    ensures { (system : Inequalities) (keep : List ℕ) (certificate : Certificate)
        → KeepsAll keep system → IsGood system certificate
        ↔ IsGood (with_columns keep system) certificate }
{}

/// A whole solution, without the columns that aren't kept, solves the system without them.
pub fn whole_solutions_are_kept()
    ensures { (system : Inequalities) (keep : List ℕ) (xs : List ℤ) → KeepsAll keep system
        → IsWholeSolution system xs → IsWholeSolution (with_columns keep system) (kept keep xs) }
{}

/// A whole solution of the system without such columns, with any values of theirs, solves the whole
/// system.
pub fn whole_solutions_are_widened()
    ensures { (system : Inequalities) (keep : List ℕ) (fill : ℕ → ℤ) (xs : List ℤ)
        → KeepsAll keep system → IsWholeSolution (with_columns keep system) xs
        → IsWholeSolution system (spread fill 0 system.vars keep xs) }
{}

/// So does a rational one.
pub fn rational_solutions_are_widened()
    ensures { (system : Inequalities) (keep : List ℕ) (fill : ℕ → ℤ) (xs : List ℤ) (d : ℤ)
        → KeepsAll keep system → IsRationalSolution (with_columns keep system) xs d
        → IsRationalSolution system (spread fill 0 system.vars keep xs) d }
{}

/// The first fault of a certificate that doesn't name some rows is that for the system without them,
/// and without the columns that are 0 in each of the others.
pub fn faults_are_those_of_what_is_left()
    ensures { (system : Inequalities) (numbers keep : List ℕ) (certificate : Certificate)
        → KeepsLast numbers system.rows → KeepsAll keep (with_rows numbers system)
        → first_fault system (renumbered (length system.rows) numbers certificate)
        ≡ option_map (renumbered_fault (length system.rows) numbers)
        (option_map (whole_fault system.vars keep) (first_fault
        (with_columns keep (with_rows numbers system)) certificate)) }
{}

/// Such a certificate is good for the one exactly where it is for the other.
pub fn good_certificates_are_those_of_what_is_left()
    ensures { (system : Inequalities) (numbers keep : List ℕ) (certificate : Certificate)
        → KeepsLast numbers system.rows → KeepsAll keep (with_rows numbers system)
        → IsGood system (renumbered (length system.rows) numbers certificate)
        ↔ IsGood (with_columns keep (with_rows numbers system)) certificate }
{}

/// A certificate all of whose given rows are kept has a form in their numbers.
pub fn certificates_that_name_kept_rows_are_renumbered()
    ensures { (count : ℕ) (numbers : List ℕ) (certificate : Certificate)
        → StepsNameKept count numbers certificate.steps
        → renumbered count numbers (kept_certificate count numbers certificate) ≡ certificate }
{}

/// A row more at the end of both, which is 0 outside the columns that are kept.
pub fn a_last_row_may_be_pushed_to_both()
    ensures { (whole : Inequalities) (p : Presolution) (row : Row) → IsPresolved whole p
        → length row.coefs ≡ whole.vars → IsZeroOutside whole.vars p.columns row
        → IsPresolved (with_row row whole) (with_last (kept_row p.columns row) p) }
{}

/// Rows that were pushed leave again, and nothing has changed.
pub fn pushed_rows_leave_again()
    ensures { (p : Presolution) (row : Row) (kept : ℕ) → kept ≤ length p.numbers
        → length p.system.rows ≡ length p.numbers → first_kept kept (with_last row p)
        ≡ first_kept kept p }
{}
