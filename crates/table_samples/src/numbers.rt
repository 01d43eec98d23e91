// Numbers at the edges of their ranges.
use marks::{Charge, Mark, Reason, Refusal, Support, Width};
use std::test::Fail;

// Of each kind a number before the first, the first, the last, one past the last, and one that is 1 in 32 bits. A row that is wrong names the kind.
#[test]
fn ranges_of_the_kinds(rt: HostRuntime) {
    let (short, long) = (
        [0, 1, 32, 33, 4_294_967_297],
        [0, 1, 65_536, 65_537, 4_294_967_297],
    );
    let within = [
        short.map(|number| Mark::new(number).is_ok()),
        short.map(|number| Width::new(number).is_ok()),
        long.map(|number| Charge::new(number).is_ok()),
        long.map(|number| Support::new(number).is_ok()),
    ];
    assert_eq!(rt; within, [[false, true, true, false, false]; 4]);
}

#[test]
fn numbers_out_of_range_are_refused(rt: HostRuntime) {
    let range = Refusal::unplaced(Reason::Range);
    for number in [0, 33, 4_294_967_297] {
        let answers = (Mark::new(number), Width::new(number));
        assert_eq!(rt; answers, (Err(range), Err(range)), "{number}");
    }
    for number in [0, 65_537, 4_294_967_297, u64::MAX] {
        let answers = (Charge::new(number), Support::new(number));
        assert_eq!(rt; answers, (Err(range), Err(range)), "{number}");
    }
}

// The number of the charge after this one, if it is among so many.
fn after(charge: u64, count: u32) -> Result<Option<u32>, Refusal> {
    Ok(Charge::new(charge)?.next(count).map(Charge::get))
}

#[test]
fn charges_follow_one_another_up_to_the_count(rt: HostRuntime) {
    let numbers = [
        after(1, 2),
        after(2, 2),
        after(65_535, u32::MAX),
        after(65_536, u32::MAX),
    ];
    assert_eq!(rt;
        numbers,
        [Ok(Some(2)), Ok(None), Ok(Some(65_536)), Ok(None)]
    );
}

#[test]
fn first_charges(rt: HostRuntime) {
    for (count, charge) in [(0, None), (1, Some(1))] {
        assert_eq!(rt; Charge::first(count).map(Charge::get), charge);
    }
}

#[test]
fn charges_in_turn(rt: HostRuntime) {
    for (count, place, charge) in [
        (0, 0, None),
        (2, 0, Some(1)),
        (2, 1, Some(2)),
        (2, 2, None),
        (u32::MAX, 65_535, Some(65_536)),
        (u32::MAX, 65_536, None),
    ] {
        let found = Charge::up_to(count).nth(place);
        assert_eq!(rt; found.map(Charge::get), charge);
    }
}

#[test]
fn marks_in_turn(rt: HostRuntime) {
    for (width, place, mark) in [
        (1, 0, Some(1)),
        (1, 1, None),
        (32, 0, Some(1)),
        (32, 31, Some(32)),
        (32, 32, None),
    ] {
        let found = Mark::up_to(Width::new(width).unwrap()).nth(place);
        assert_eq!(rt; found.map(Mark::get), mark);
    }
}

#[test]
fn numbers_are_shown_by_their_kind(rt: HostRuntime) -> Result<(), Fail> {
    let shown = [
        format!(in rt.alloc(); "{:?}", Mark::new(7)?)?,
        format!(in rt.alloc(); "{:?}", Width::new(7)?)?,
        format!(in rt.alloc(); "{:?}", Charge::new(7)?)?,
        format!(in rt.alloc(); "{:?}", Support::new(7)?)?,
    ];
    let kinds = ["Mark", "Width", "Charge", "Support"];
    for (text, kind) in shown.iter().zip(kinds) {
        let whole = format!(in rt.alloc(); "{kind} {{ number: 7 }}")?;
        assert_eq!(rt; text.as_str(), whole.as_str());
    }
    Ok(())
}
