// The lines of a text, one by one.

ghost use Rattle.std.specs.Prelude.{◌≡◌, ◌+◌, ◌∷◌, ◌++◌, ◌≤◌, ◌==◌, length, position, IfOk, IfErr, true, false};

use crate::syntax::PlanSyntax;

/// The most bytes that a plan's text may have.
pub const MOST_BYTES: usize = 4_194_304;

/// What is left of a text, and how many lines were taken.
#[derive(Drop)]
pub(crate) struct Lines<'a> {
    pub(crate) rest: &'a [u8],
    pub(crate) taken: u32,
    ghost bounded: { taken + length rest.now ≤ 4194304 },
}

impl<'a> Lines<'a> {
    ghost use Rattle.plan_text.specs.Unbroken.{is_unbroken};
    ghost use Rattle.plan_text.specs.declared.syntax.PlanSyntax.TheVariants.{Line};

    pub(crate) fn new(bytes: &'a [u8]) -> Self
        requires { length bytes.now ≤ MOST_BYTES }
        ensures rest { result.rest.now ≡ bytes.now }
        ensures taken { result.taken ≡ 0 }
    {
        Lines {
            rest: bytes,
            taken: 0,
        }
    }

    /// The next line, without its end; refused where there is none.
    pub(crate) fn next(&mut self) -> Result<&'a [u8], PlanSyntax>
        ensures cut { IfOk result (λ line. self.old.rest.now ≡ line.now
            ++ (10 ∷ self.new.rest.now)) }
        ensures whole { IfOk result (λ line. is_unbroken line.now ≡ true) }
        ensures taken { IfOk result (λ line. self.new.taken ≡ self.old.taken + 1) }
        ensures refused { IfErr result (λ e. e ≡ Line (self.old.taken + 1)) }
        ensures none { IfErr result (λ e. is_unbroken self.old.rest.now ≡ true) }
    {
        let Some(place) = line_end(self.rest) else {
            return Err(PlanSyntax::Line(self.taken + 1));
        };
        let line = &self.rest[..place];
        self.rest = &self.rest[place + 1..];
        self.taken += 1;
        Ok(line)
    }

    /// The refusal of the line that was taken last.
    pub(crate) fn refusal(&self) -> PlanSyntax
        ensures { result ≡ Line self.now.taken }
    {
        PlanSyntax::Line(self.taken)
    }
}

// The place of the first line feed.
fn line_end(bytes: &[u8]) -> Option<usize>
    ensures { result ≡ position (λ b. b == 10) bytes.now }
{
    bytes.iter().position(|byte| *byte == b'\n')
}

/// Whether a line is as it would be written.
pub(crate) fn is_same(line: &[u8], written: &[u8]) -> bool
    ensures same { result ≡ true → written.now ≡ line.now }
    ensures differs { result ≡ false → written.now ≡ line.now → ⊥ }
{
    line == written
}
