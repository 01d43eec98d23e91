// Tallies, and nodes that are narrowed.
use finder::{Node, Tally, narrow};
use limit_samples::within::Within;
use limits::{Limit, Size};
use marks::{Mark, MarkSet, Reason, Refusal, Support, Width};
use std::test::Fail;
use tables::{Columns, Holding, Table, turn};
use worked::sample;

// Where sets have at least two charges, the node with these marks put in and put out.
fn narrowed<T: Table, W: Limit>(
    table: &T,
    limit: &W,
    ins: u32,
    outs: u32,
) -> Result<Node, Refusal> {
    let (ins, outs) = (MarkSet::from_bits(ins), MarkSet::from_bits(outs));
    narrow(table, limit, Support::new(2).unwrap(), ins, outs)
}

// A node, or a refusal with no place.
fn node(answer: Result<(u32, u32, u32), Reason>) -> Result<Node, Refusal> {
    match answer {
        Ok((ins, outs, support)) => Ok(Node {
            ins: MarkSet::from_bits(ins),
            outs: MarkSet::from_bits(outs),
            support,
        }),
        Err(reason) => Err(Refusal::unplaced(reason)),
    }
}

// With nothing put in or out, and with marks that clash. Other nodes of the sample are with the worked answers.
#[test]
fn the_root_and_clashes(rt: HostRuntime) {
    let any = Size::new(5);
    let nodes = [
        narrowed(&sample(), &any, 0, 0),
        narrowed(&sample(), &any, 0b10, 0b110),
        narrowed(&sample(), &any, 0b100000, 0),
        narrowed(&sample(), &any, 0, 1 << 31),
        narrowed(&sample(), &any, 0b1000, 0b100010),
    ];
    let clash = node(Err(Reason::Clash));
    assert_eq!(rt;
        nodes,
        [node(Ok((0, 0b10000, 5))), clash, clash, clash, clash]
    );
}

// Two charges hold mark 4, but each of them holds marks 1 and 2 besides.
#[test]
fn limits_are_asked_about_closures(rt: HostRuntime) -> Result<(), Fail> {
    let mut words = [0; 5];
    turn(&sample(), &mut words)?;
    let columns = Columns::new(&words, Width::new(5)?, 5)?;
    let two = Within::new(MarkSet::from_bits(0b1010));
    let nodes = [
        narrowed(&sample(), &Size::new(1), 0, 0),
        narrowed(&sample(), &Size::new(1), 0b1000, 0),
        narrowed(&columns, &two, 0, 0),
        narrowed(&columns, &two, 0b1000, 0),
    ];
    let due = [
        node(Ok((0, 0b11001, 5))),
        node(Err(Reason::DeadEnd)),
        node(Ok((0, 0b11101, 5))),
        node(Err(Reason::DeadEnd)),
    ];
    assert_eq!(rt; nodes, due);
    Ok(())
}

fn seen(holding: Holding) -> (u32, u32) {
    (holding.support(), holding.closure().bits())
}

// What a tally says of the set itself, and of it with mark 1, 4, 6 or 32 added.
fn tally(set: u32) -> [(u32, u32); 5] {
    let tally = Tally::of(&sample(), MarkSet::from_bits(set));
    [
        seen(tally.own()),
        seen(tally.with(Mark::new(1).unwrap())),
        seen(tally.with(Mark::new(4).unwrap())),
        seen(tally.with(Mark::new(6).unwrap())),
        seen(tally.with(Mark::new(32).unwrap())),
    ]
}

#[test]
fn tallies(rt: HostRuntime) {
    let none = (0, 0b11111);
    let tallies = [tally(0b1), tally(0), tally(0b100001), tally(1 << 31)];
    assert_eq!(rt;
        tallies,
        [
            [(3, 0b11), (3, 0b11), (2, 0b1011), none, none],
            [(5, 0), (3, 0b11), (2, 0b1011), none, none],
            [none; 5],
            [none; 5],
        ]
    );
}
