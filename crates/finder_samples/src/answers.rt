// The worked answers, run.
use finder::Node;
use found::Record;
use marks::{MarkSet, Reason, Refusal};
use std::test::Fail;
use worked::{Listing, Narrowing, list, narrow_sample};

// A record as its set, its support, its ordinal and how many nodes had been opened.
type Row = (u32, u32, u64, u64);

fn row(record: &Record) -> Row {
    (
        record.set.bits(),
        record.support,
        record.ordinal,
        record.opened,
    )
}

// The records of each list, and how many nodes are opened for it.
#[test]
fn lists(rt: HostRuntime) -> Result<(), Fail> {
    for (listing, rows, opened) in [
        (
            Listing::HeldTwice,
            [
                (0b01011, 2, 1, 3),
                (0b00011, 3, 2, 4),
                (0b00010, 4, 3, 6),
                (0b00100, 2, 4, 8),
                (0b00000, 5, 5, 9),
            ]
            .as_slice(),
            9,
        ),
        (
            Listing::HeldOnce,
            [
                (0b01011, 2, 1, 3),
                (0b00011, 3, 2, 4),
                (0b00110, 1, 3, 7),
                (0b00010, 4, 4, 8),
                (0b10100, 1, 5, 11),
                (0b00100, 2, 6, 12),
                (0b00000, 5, 7, 13),
            ]
            .as_slice(),
            13,
        ),
        (Listing::HeldSixTimes, [].as_slice(), 1),
        (
            Listing::TwoMarks,
            [
                (0b011, 3, 1, 2),
                (0b010, 4, 2, 4),
                (0b100, 2, 3, 6),
                (0b000, 5, 4, 7),
            ]
            .as_slice(),
            7,
        ),
        (Listing::OneMark, ONE_MARK.as_slice(), 5),
        (Listing::Light, ONE_MARK.as_slice(), 5),
        (
            Listing::InWindow,
            [(0b11, 2, 1, 2), (0b10, 3, 2, 3)].as_slice(),
            3,
        ),
        (
            Listing::InSelection,
            [(0b11, 2, 1, 2), (0b10, 4, 2, 4), (0b00, 5, 3, 5)].as_slice(),
            5,
        ),
    ] {
        let list = list(rt.alloc(), listing)?;
        let records: Vec<Row> = list.records.iter().map(row).collect(rt.alloc())?;
        assert_eq!(rt;
            (records.as_slice(), list.opened),
            (rows, opened),
            "{listing:?}"
        );
    }
    Ok(())
}

// What is listed of at most one mark, and as it happens of light sets too.
const ONE_MARK: [Row; 3] = [(0b010, 4, 1, 2), (0b100, 2, 2, 4), (0b000, 5, 3, 5)];

fn node(ins: u32, outs: u32, support: u32) -> Result<Node, Refusal> {
    Ok(Node {
        ins: MarkSet::from_bits(ins),
        outs: MarkSet::from_bits(outs),
        support,
    })
}

#[test]
fn nodes(rt: HostRuntime) {
    let nodes = [
        narrow_sample(Narrowing::WithoutOne),
        narrow_sample(Narrowing::WithFour),
        narrow_sample(Narrowing::WithFourWithoutTwo),
    ];
    let due = [
        node(0b00000, 0b11001, 5),
        node(0b01011, 0b10100, 2),
        Err(Refusal::unplaced(Reason::DeadEnd)),
    ];
    assert_eq!(rt; nodes, due);
}
