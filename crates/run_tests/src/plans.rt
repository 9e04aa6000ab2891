// Sources with plans behind them, and which obligations these have. What no clause says is that the
// definitions mean what is wanted, and that memory is not refused where there is enough.

use comm_system::Obligation;
use f77_lines::MOST_BYTES;
use obligation_numbers::{obligation_at, obligation_count};
use plan_input::{InputError, read_fitting, read_source};
use std::alloc::{AllocError, Global};
use std::test::Fail;

// All kinds barriers: one array is copied from the other back to front.
pub(crate) const MIRROR: &[u8] =
    b"      INTEGER A(6), B(6)\n      DO 10 I = 1, 6\n   10 A(I) = I\n      DO 20 I = 1, 6\n   20 B(I) = A(7-I)\n      PRINT *, B(1)\n      END\nSPMD PLAN 1\nWORKERS 3\nLOOPS 2\n1 DOALL\n2 DOALL\nPHASES 3\n1 BARRIER AT -1 1*L1 BLOCK 2\n2 BARRIER AT -1 1*L2 BLOCK 2\n3 BARRIER AT 0 CYCLIC\nCERTIFICATES 2\n1 STEPS 1\n1 1*1 6*1 10*1 11*1\n2 STEPS 1\n1 1*1 6*1 10*1 11*1\nEND PLAN\n";

// Certificates whose steps round.
pub(crate) const ROUNDING: &[u8] =
    b"      INTEGER A(8)\n      A(1) = 5\n      DO 10 I = 1, 4\n   10 A(2*I) = A(2*I-1)\n      PRINT *, A\n      END\nSPMD PLAN 1\nWORKERS 2\nLOOPS 1\n1 DOALL\nPHASES 3\n1 BARRIER AT 0 BLOCK 4\n2 BARRIER AT -1 2*L1 BLOCK 4\n3 BARRIER AT 0 CYCLIC\nCERTIFICATES 3\n1 STEPS 3\n2 9*1\n2 10*1\n1 12*1 13*1\n2 STEPS 3\n2 9*1\n2 10*1\n1 12*1 13*1\n3 STEPS 1\n1 1*2 6*2 10*1 11*2\nEND PLAN\n";

// The only barrier stands in a loop of no trips.
const NO_TRIPS: &[u8] =
    b"      INTEGER A(2), B(2)\n      DO 10 I = 1, 2\n   10 A(I) = I\n      DO 20 K = 1, 0\n      B(1) = K\n   20 CONTINUE\n      PRINT *, A(2)\n      END\nSPMD PLAN 1\nWORKERS 2\nLOOPS 2\n1 DOALL\n2 OUTER\nPHASES 3\n1 NOTHING AT -1 1*L1 BLOCK 1\n2 BARRIER AT 0 BLOCK 1\n3 NOTHING AT 0 BLOCK 1\nCERTIFICATES 2\n1 STEPS 1\n1 1*1 6*1 10*1 11*1\n2 STEPS 1\n1 9*1 11*1 15*1\nEND PLAN\n";

// A chain of neighbours.
const CHAIN: &[u8] =
    b"      INTEGER A(6), B(6), C(6)\n      DO 10 I = 1, 6\n   10 A(I) = I\n      DO 20 I = 1, 6\n   20 B(I) = I\n      DO 30 I = 1, 6\n   30 C(I) = A(7-I)\n      PRINT *, C(1)\n      END\nSPMD PLAN 2\nWORKERS 3\nLOOPS 3\n1 DOALL\n2 DOALL\n3 DOALL\nPHASES 4\n1 NOTHING AT -1 1*L1 BLOCK 2\n2 BOTH AT -1 1*L2 BLOCK 2\n3 BOTH AT -1 1*L3 BLOCK 2\n4 NOTHING AT 0 BLOCK 1\nCERTIFICATES 7\n1 STEPS 1\n1 1*1 6*1 10*1 11*1\n2 STEPS 1\n1 1*1 6*1 10*1 11*1\n3 STEPS 1\n1 1*1 6*1 10*1 11*1\n4 STEPS 1\n1 13*1 18*1 19*1\n5 STEPS 1\n1 14*1 17*1 19*1\n6 STEPS 1\n1 9*1 11*1 15*1\n7 STEPS 1\n1 5*1 7*1 12*2 15*2\nEND PLAN\n";

// How many obligations the plan behind a source has, and what that with a number speaks of.
fn obligation(alloc: Global, bytes: &[u8], number: u64) -> Result<String, AllocError> {
    match obligation_behind(alloc, bytes, number) {
        Ok((found, count)) => match &found {
            Some(found) => shown(alloc, found, count),
            None => format!(in alloc; "none of {count}"),
        },
        Err(error) => format!(in alloc; "{error}"),
    }
}

fn obligation_behind(
    alloc: Global,
    bytes: &[u8],
    number: u64,
) -> Result<(Option<Obligation>, u64), InputError> {
    if bytes.len() > MOST_BYTES {
        return Err(InputError::TooLong);
    }
    let (program, rest) = read_source(alloc, bytes)?;
    let plan = read_fitting(alloc, &program, &bytes[rest..])?;
    let count = obligation_count(&program, &plan);
    Ok((obligation_at(alloc, &program, &plan, number)?, count))
}

// An obligation, one of so many.
fn shown(alloc: Global, found: &Obligation, count: u64) -> Result<String, AllocError> {
    let Obligation {
        number,
        lines,
        variable,
        level,
        piece,
        ..
    } = found;
    let (first, second) = lines;
    format!(in alloc; "{number} of {count}: {first}-{second} V{variable} L{level} P{piece}")
}

// The obligations of one plan by their numbers, and none with the number 0 or past the last.
#[test]
fn obligations_are_found(rt: HostRuntime) -> Result<(), Fail> {
    let alloc = rt.alloc();
    let rows: [(&[u8], u64, &str); 8] = [
        (NO_TRIPS, 0, "none of 3"),
        (NO_TRIPS, 1, "1 of 3: 3-3 V1 L0 P0"),
        (NO_TRIPS, 2, "2 of 3: 3-7 V1 L0 P1"),
        (NO_TRIPS, 3, "3 of 3: 3-7 V1 L0 P2"),
        (NO_TRIPS, 4, "none of 3"),
        (CHAIN, 7, "7 of 7: 7-8 V3 L0 P2"),
        (CHAIN, 8, "none of 7"),
        (MIRROR, 18_446_744_073_709_551_615, "none of 2"),
    ];
    for &(text, number, wanted) in &rows {
        let found = obligation(alloc, text, number)?;
        assert_eq!(rt; found.as_str(), wanted);
    }
    Ok(())
}
