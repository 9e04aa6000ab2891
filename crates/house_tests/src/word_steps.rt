use crate::straight_line::{line, plan_with};
use shared_words::{Cells, Poll};
use std::test::Fail;
use sync_plan::Kind;

#[test]
#[tactic(none)]
fn a_counter_shows_what_was_posted(rt: HostRuntime) -> Result<(), Fail> {
    let program = line(rt.alloc())?;
    let kinds = vec![in rt.alloc(); Kind::Join, Kind::Join, Kind::Join]?;
    let plan = plan_with(rt.alloc(), kinds)?;
    let (cells, mut main) = Cells::new(rt.alloc(), &program, &plan)?;
    let mut seat = cells.seat_for(&mut main, 1);
    cells.post(&mut seat, 0);
    let Poll::Ready = cells.poll(&mut seat, 0, 0) else {
        return Err(Fail::new("0 is awaited in vain"));
    };
    cells.post(&mut seat, 1);
    let found = cells.poll(&mut seat, 0, 1);
    assert_eq!(rt; found, Poll::NotYet { seen: 0 });
    Ok(())
}

#[test]
#[tactic(none)]
fn all_arrivals_are_awaited(rt: HostRuntime) -> Result<(), Fail> {
    let program = line(rt.alloc())?;
    let kinds = vec![in rt.alloc(); Kind::Barrier, Kind::Barrier, Kind::Barrier]?;
    let plan = plan_with(rt.alloc(), kinds)?;
    let (cells, mut main) = Cells::new(rt.alloc(), &program, &plan)?;
    let mut first = cells.seat_for(&mut main, 0);
    let mut second = cells.seat_for(&mut main, 1);
    cells.arrive(&mut second, 1);
    let Poll::NotYet { seen } = cells.poll_arrivals(&mut second, 1) else {
        return Err(Fail::new("one arrival is enough"));
    };
    assert_eq!(rt; seen, 1);
    cells.arrive(&mut first, 1);
    let found = cells.poll_arrivals(&mut second, 1);
    assert_eq!(rt; found, Poll::Ready);
    Ok(())
}
