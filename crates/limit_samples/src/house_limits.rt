// Limits at their edges.
use crate::within::Within;
use limits::{Bars, Both, Limit, Pair, Size, Weight, Weights};
use marks::{MarkSet, Reason, Refusal};
use std::test::Fail;

// Which of the sets {}, {1}, {1, 2} and {1, .., 32} a limit allows.
type Seen = [bool; 4];

const NONE_BUT_EMPTY: Seen = [true, false, false, false];

const ONE: Seen = [true, true, false, false];

const TWO: Seen = [true, true, true, false];

const ALL: Seen = [true; 4];

fn seen<L: Limit>(limit: &L) -> Seen {
    [
        limit.allows(MarkSet::empty()),
        limit.allows(MarkSet::from_bits(1)),
        limit.allows(MarkSet::from_bits(3)),
        limit.allows(MarkSet::from_bits(u32::MAX)),
    ]
}

#[test]
fn sizes(rt: HostRuntime) {
    for (most, allowed) in [
        (0, NONE_BUT_EMPTY),
        (1, ONE),
        (31, TWO),
        (32, ALL),
        (4_294_967_296, ALL),
    ] {
        assert_eq!(rt; seen(&Size::new(most)), allowed, "{most}");
    }
}

// The weights of marks 1 and 2; the others weigh nothing.
fn weights(first: u16, second: u16) -> Weights {
    let mut weights = [0; 32];
    weights[0] = first;
    weights[1] = second;
    weights
}

#[test]
fn light_sets(rt: HostRuntime) {
    let (some, most) = (weights(3, 4), [65_535; 32]);
    for (weights, cap, allowed) in [
        (some, 0, NONE_BUT_EMPTY),
        (some, 6, ONE),
        (some, 7, ALL),
        (most, 2_097_119, TWO),
        (most, 2_097_120, ALL),
    ] {
        assert_eq!(rt; seen(&Weight::new(weights, cap)), allowed, "{cap}");
    }
}

#[test]
fn both(rt: HostRuntime) {
    let light = Weight::new(weights(5, 0), 4);
    let allowed = [
        seen(&Both::new(Size::new(2), light)),
        seen(&Both::new(&light, &Size::new(2))),
        seen(&Both::new(Size::new(2), Size::new(1))),
    ];
    assert_eq!(rt; allowed, [NONE_BUT_EMPTY, NONE_BUT_EMPTY, ONE]);
}

#[test]
fn a_limit_of_ones_own(rt: HostRuntime) {
    assert_eq!(rt; seen(&Within::new(MarkSet::from_bits(3))), TWO);
}

fn pair(marks: (u64, u64)) -> Pair {
    Pair {
        first: marks.0,
        second: marks.1,
    }
}

// The refusal of three pairs, if they are refused.
fn refusal(pairs: [(u64, u64); 3]) -> Option<Refusal> {
    Bars::new(&pairs.map(pair)).err()
}

fn bad_pair(place: u64) -> Option<Refusal> {
    Some(Refusal::at(Reason::BadPair, place))
}

#[test]
fn pairs_in_order(rt: HostRuntime) {
    let refusals = [
        Bars::new(&[]).err(),
        refusal([(1, 2), (1, 3), (2, 3)]),
        refusal([(1, 2), (1, 2), (2, 3)]),
        refusal([(1, 2), (1, 3), (1, 3)]),
        refusal([(1, 2), (1, 3), (1, 2)]),
        refusal([(2, 1), (1, 3), (2, 3)]),
        refusal([(1, 2), (5, 5), (2, 3)]),
        refusal([(1, 2), (1, 3), (32, 31)]),
    ];
    let due = [
        None,
        None,
        bad_pair(2),
        bad_pair(3),
        bad_pair(3),
        bad_pair(1),
        bad_pair(2),
        bad_pair(3),
    ];
    assert_eq!(rt; refusals, due);
}

// A pair out of range is refused before one out of order that stands left of it.
#[test]
fn entries_in_range(rt: HostRuntime) {
    for (pairs, place) in [
        ([(0, 1), (1, 3), (2, 3)], 1),
        ([(1, 2), (1, 3), (3, 33)], 3),
        ([(1, 2), (4_294_967_297, 2), (2, 3)], 2),
        ([(2, 1), (3, 33), (0, 0)], 2),
        ([(2, 1), (0, 0), (2, 3)], 2),
    ] {
        let due = Some(Refusal::at(Reason::Range, place));
        assert_eq!(rt; refusal(pairs), due, "{pairs:?}");
    }
    for second in [(3, 33), (0, 0)] {
        let pairs = [pair((2, 1)), pair(second)];
        let due = Some(Refusal::at(Reason::Range, 2));
        assert_eq!(rt; Bars::new(&pairs).err(), due, "{second:?}");
    }
}

#[test]
fn barred_pairs(rt: HostRuntime) -> Result<(), Fail> {
    let pairs = [pair((1, 2)), pair((31, 32))];
    let bars = Bars::new(&pairs)?;
    assert_eq!(rt; seen(&bars), ONE);
    let wide = [
        bars.allows(MarkSet::from_bits(0x7fff_fffd)),
        bars.allows(MarkSet::from_bits(0xc000_0000)),
    ];
    assert_eq!(rt; wide, [true, false]);
    Ok(())
}
