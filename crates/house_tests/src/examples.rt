// The examples on the pages of the crates that serve alone, each a function, and tests that call
// them one after another.

mod plans;
mod source;
mod systems;
mod words;

use fm_elim::Answer;
use plan_text::MOST_BYTES;
use std::test::Fail;

// An array is filled, and another is copied from it back to front.
const MIRROR: &[u8] =
    b"      INTEGER A(6), B(6)\n      DO 10 I = 1, 6\n   10 A(I) = I\n      DO 20 I = 1, 6\n   20 B(I) = A(7-I)\n      PRINT *, B(1)\n      END\n";

// No whole number is at most 2 and at least 3: the certificate is taken, and another is found.
#[test]
fn a_system_is_refuted_and_decided(rt: HostRuntime) -> Result<(), Fail> {
    let system = systems::apart(rt.alloc())?;
    systems::refute(rt.alloc(), &system)?;
    let decision = systems::decided(rt.alloc(), system)?;
    assert!(rt; matches!(&decision, Some(Answer::Infeasible(_))));
    Ok(())
}

#[test]
fn a_plan_is_made_and_written_and_accepted(rt: HostRuntime) -> Result<(), Fail> {
    let program = source::program_of(rt.alloc(), MIRROR)?;
    let text = plans::made(rt.alloc(), &program)?;
    if text.len() > MOST_BYTES {
        return Err(Fail::new("the plan is too long"));
    }
    let again = plans::written(rt.alloc(), &text)?;
    assert_eq!(rt; again.as_slice(), text.as_slice());
    let verdict = plans::verdict(&rt, rt.alloc(), &program, &text)?;
    assert_eq!(rt; verdict.as_str(), "ACCEPTED");
    Ok(())
}

#[test]
fn two_threads_meet_at_a_barrier(rt: HostRuntime) -> Result<(), Fail> {
    assert_eq!(rt; words::met(&rt, rt.alloc())?, (true, true));
    Ok(())
}
