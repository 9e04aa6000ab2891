// Systems over three variables: what a certificate shows of them, what elimination says, and what a
// quick look finds.

ghost use Rattle.std.specs.Prelude.{◌≡◌, IfOk, length};

use farkas_cert::narrow::are_narrow_rows;
use farkas_cert::{
    CertRefusal, Certificate, Coefs, Row, Step, StepList, System, Terms, check_cert,
};
use fm_elim::{Answer, NoMemory, decide};
use quick_elim::{Budget, Settled, settle};
use std::alloc::{AllocError, Global};
use std::test::Fail;

fn number_in(word: Option<&str>) -> Result<i128, Fail> {
    let Some(word) = word else {
        return Err(Fail::new("a number is missing"));
    };
    match word.parse::<i128>() {
        Ok(number) => Ok(number),
        Err(_) => Err(Fail::new("a word is no number")),
    }
}

// The row of a text: three coefficients, `<=` and a bound.
fn row_of(alloc: Global, text: &str) -> Result<Row, Fail>
    ensures { IfOk result (λ row. length row.coefs ≡ 3) }
{
    let mut words = text.split_whitespace();
    let first = number_in(words.next())?;
    let second = number_in(words.next())?;
    let third = number_in(words.next())?;
    let bound = number_in(words.nth(1))?;
    let coefs = Coefs::from_slice(alloc, &[first, second, third])?;
    Ok(Row { coefs, bound })
}

// The system of a text: rows between semicolons.
fn system_of(alloc: Global, text: &str) -> Result<System, Fail>
    ensures { IfOk result (λ system. system.vars ≡ 3) }
{
    let mut system = System::empty(alloc, 3);
    for row in text.split(';') {
        system.push(row_of(alloc, row)?)?;
    }
    Ok(system)
}

// The step of a text: a divisor, and terms of a row's number, `*` and a multiplier.
fn step_of(alloc: Global, text: &str) -> Result<Step, Fail> {
    let mut words = text.split_whitespace();
    let divisor = number_in(words.next())?;
    let mut terms = Vec::new(alloc);
    for word in words {
        terms.push(term_of(word)?)?;
    }
    Ok(Step {
        divisor,
        terms: Terms::from_vec(terms),
    })
}

fn term_of(word: &str) -> Result<(u64, i128), Fail> {
    let Some((row, multiplier)) = word.split_once('*') else {
        return Err(Fail::new("a word is no term"));
    };
    match row.parse::<u64>() {
        Ok(row) => Ok((row, number_in(Some(multiplier))?)),
        Err(_) => Err(Fail::new("a word is no row")),
    }
}

// The certificate of a text: steps between semicolons.
fn certificate_of(alloc: Global, text: &str) -> Result<Certificate, Fail> {
    let mut steps = Vec::new(alloc);
    for step in text.split(';') {
        steps.push(step_of(alloc, step)?)?;
    }
    Ok(Certificate {
        steps: StepList::from_vec(steps),
    })
}

// 2i - 2j <= 1 and j < i: halved, the first says i - j <= 0. And rows at the limit of numbers, which
// is 2 ^ 126.
const ROWS: &str =
    "2 -2 0 <= 1; -1 1 0 <= -1; 0 0 0 <= -85070591730234615865843651857942052864; 0 0 0 <= -42535295865117307932921825928971026432; 1 85070591730234615865843651857942052865 0 <= -1";

#[test]
fn certificates_are_checked(rt: HostRuntime) -> Result<(), Fail> {
    let alloc = rt.alloc();
    let system = system_of(alloc, ROWS)?;
    let table: [(&str, Result<(), CertRefusal>); 14] = [
        ("1 1*1 2*2", Ok(())),
        ("2 1*1; 1 2*1 6*1", Ok(())),
        ("1 4*2", Ok(())),
        ("1 1*1 2*2; 1 6*1", Ok(())),
        ("1 0*-1 2*1", Err(CertRefusal::NegativeMultiplier(1))),
        ("1 1*1 2*2; 1 0*1", Err(CertRefusal::BadRow(2))),
        ("1 6*1", Err(CertRefusal::BadRow(1))),
        ("0 1*1", Err(CertRefusal::BadDivisor(1))),
        ("3 1*1", Err(CertRefusal::BadDivisor(1))),
        ("1 4*3", Err(CertRefusal::Wide(1, 4))),
        ("1 3*1 4*1", Err(CertRefusal::Wide(1, 4))),
        ("1 5*1", Err(CertRefusal::Wide(1, 2))),
        ("1 1*1", Err(CertRefusal::NoContradiction(6))),
        ("1", Err(CertRefusal::NoContradiction(6))),
    ];
    for (steps, wanted) in table {
        let certificate = certificate_of(alloc, steps)?;
        assert_eq!(rt; check_cert(alloc, &system, &certificate), wanted, "{steps}");
    }
    Ok(())
}

// What elimination says of a system, by its variables in order.
fn decided(alloc: Global, system: &System) -> Result<String, NoMemory>
    requires { system.now.vars ≡ 3 }
{
    if !are_narrow_rows(system.rows()) {
        return Ok(format!(in alloc; "too large")?);
    }
    match decide(alloc, system, &[1, 2, 3])? {
        Answer::Infeasible(certificate) => {
            let good = check_cert(alloc, system, &certificate).is_ok();
            Ok(format!(in alloc; "infeasible, good {good}")?)
        }
        Answer::Open => Ok(format!(in alloc; "open")?),
        Answer::Wide { level, .. } => Ok(format!(in alloc; "wide {level}")?),
        Answer::Many { level, count } => Ok(format!(in alloc; "many {level} {count}")?),
        Answer::Work { level, pairs } => Ok(format!(in alloc; "work {level} {pairs}")?),
    }
}

// 2i is 1, which holds at i = 1/2 alone; i is 1; a triangle with the corners (1/3, 0), (3/5, 4/5) and
// (0, 1/2), which has no whole point; a combination whose second entry is 2 ^ 128 + 2 ^ 64 - 1.
#[test]
fn systems_are_decided(rt: HostRuntime) -> Result<(), Fail> {
    let alloc = rt.alloc();
    let table = [
        ("2 0 0 <= 1; -2 0 0 <= -1", "infeasible, good true"),
        ("1 0 0 <= 1; -1 0 0 <= -1", "open"),
        ("-3 -2 0 <= -1; -1 2 0 <= 1; 3 -1 0 <= 1", "open"),
        (
            "18446744073709551616 18446744073709551615 0 <= 0; -18446744073709551617 1 0 <= 0",
            "wide 1",
        ),
    ];
    for (rows, told) in table {
        let system = system_of(alloc, rows)?;
        assert_eq!(rt; decided(alloc, &system)?.as_str(), told, "{rows}");
    }
    let nothing = System::empty(alloc, 3);
    assert_eq!(rt; decided(alloc, &nothing)?.as_str(), "open");
    Ok(())
}

// So many rows that bound the first variable from above, and as many from below. Of 150 all 22,500
// combinations differ.
fn crowd(alloc: Global, count: u16) -> Result<System, AllocError>
    ensures { IfOk result (λ system. system.vars ≡ 3) }
{
    let mut system = System::empty(alloc, 3);
    for index in 0..count {
        let coef = i128::from(index) + 1;
        for coefs in [[1, coef, 1], [-1, 151 * coef, 0]] {
            system.push(Row {
                coefs: Coefs::from_slice(alloc, &coefs)?,
                bound: 0,
            })?;
        }
    }
    Ok(system)
}

#[test]
fn too_many_rows_are_given_up(rt: HostRuntime) -> Result<(), Fail> {
    let alloc = rt.alloc();
    let system = crowd(alloc, 150)?;
    assert_eq!(rt; decided(alloc, &system)?.as_str(), "many 1 20001");
    let system = crowd(alloc, 256)?;
    assert_eq!(rt; decided(alloc, &system)?.as_str(), "many 1 20001");
    let system = crowd(alloc, 257)?;
    assert_eq!(rt; decided(alloc, &system)?.as_str(), "work 1 66049");
    Ok(())
}

// What a quick look finds of a system within a budget.
fn found(alloc: Global, system: &System, budget: &Budget) -> Result<&'static str, AllocError> {
    match settle(alloc, system, budget) {
        Ok(Settled::Refuted(_)) => Ok("refuted"),
        Ok(Settled::Solved(_)) => Ok("solved"),
        Ok(Settled::Unknown) => Ok("unknown"),
        Err(_) => Err(AllocError),
    }
}

// 2i is 1; 1/3 <= i <= 2/3; i is 1; i is even, j odd and i = j; 2i + 3j + 5k is 1, by a whole change of
// variables; the triangle of above; a square with the corner (1/2, 1/2) at the point 0; i - j is within
// 1/3 and 2/3; numbers of more than 64 bits.
#[test]
fn systems_are_settled(rt: HostRuntime) -> Result<(), Fail> {
    let alloc = rt.alloc();
    let table = [
        ("2 0 0 <= 1; -2 0 0 <= -1", "refuted"),
        ("3 0 0 <= 2; -3 0 0 <= -1", "refuted"),
        ("1 0 0 <= 1; -1 0 0 <= -1", "solved"),
        (
            "1 0 -2 <= 0; -1 0 2 <= 0; 1 -2 0 <= 1; -1 2 0 <= -1",
            "refuted",
        ),
        ("2 3 5 <= 1; -2 -3 -5 <= -1", "solved"),
        ("-3 -2 0 <= -1; -1 2 0 <= 1; 3 -1 0 <= 1", "unknown"),
        ("2 2 0 <= 1; -2 -2 0 <= 1", "solved"),
        ("3 -3 0 <= 2; -3 3 0 <= -1", "refuted"),
        ("18446744073709551616 0 0 <= 0", "unknown"),
    ];
    for (rows, told) in table {
        let system = system_of(alloc, rows)?;
        assert_eq!(rt; found(alloc, &system, &Budget::default())?, told, "{rows}");
    }
    Ok(())
}

// Where elimination in the order of the variables gives up, a whole solution is found; but not where
// nothing may be done.
#[test]
fn many_rows_are_settled(rt: HostRuntime) -> Result<(), Fail> {
    let alloc = rt.alloc();
    let system = crowd(alloc, 150)?;
    let more = Budget {
        rows: 300,
        made: 1000,
        ..Budget::default()
    };
    assert_eq!(rt; found(alloc, &system, &more)?, "solved");
    let nothing = Budget { orders: 0, ..more };
    assert_eq!(rt; found(alloc, &system, &nothing)?, "unknown");
    Ok(())
}
