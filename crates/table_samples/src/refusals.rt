// Refusals: the number of each reason, and their places.
use marks::{Reason, Refusal};

#[test]
fn each_reason_has_its_number(rt: HostRuntime) {
    let numbered = [
        (Reason::Form, 1),
        (Reason::Range, 2),
        (Reason::BadByte, 3),
        (Reason::BadNumber, 4),
        (Reason::BadRise, 5),
        (Reason::BadBlank, 6),
        (Reason::NoLineEnd, 7),
        (Reason::TooMany, 8),
        (Reason::NoPlace, 9),
        (Reason::Long, 10),
        (Reason::Ragged, 11),
        (Reason::Stray, 12),
        (Reason::WordCount, 13),
        (Reason::BadChoice, 14),
        (Reason::BadPair, 15),
        (Reason::OutOfOrder, 16),
        (Reason::ShortSlot, 17),
        (Reason::NothingYet, 18),
        (Reason::Clash, 19),
        (Reason::DeadEnd, 20),
    ];
    for (reason, number) in numbered {
        assert_eq!(rt; Refusal::unplaced(reason).number(), number);
    }
}

// The two places of a refusal.
fn places(refusal: Refusal) -> (u64, u64) {
    (refusal.first(), refusal.second())
}

#[test]
fn places_of_refusals(rt: HostRuntime) {
    let refusals = [
        Refusal::unplaced(Reason::Range),
        Refusal::at(Reason::BadChoice, 33),
        Refusal::at_line(Reason::BadRise, 1, 3),
    ];
    assert_eq!(rt; refusals.map(places), [(0, 0), (33, 0), (1, 3)]);
}
