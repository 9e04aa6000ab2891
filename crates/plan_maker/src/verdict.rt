// What is known of systems.

/// What is known of a system, of systems one behind another, or of a loop by its systems.
#[derive(Drop)]
pub(crate) enum Verdict<R: Drop, K: Drop> {
    /// None of them has a whole solution: the certificates.
    Refuted(R),
    /// One of them is kept: which, and why.
    Kept(K),
}
