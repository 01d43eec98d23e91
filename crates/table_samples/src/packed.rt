// Packed tables at their edges.
use marks::{Charge, MarkSet, Reason, Refusal, Width};
use std::alloc::{AllocError, Global};
use std::test::Fail;
use tables::{Holding, Packed, Table};

// The refusal of these bytes as a table at width 5, if they are refused.
fn refusal(bytes: &[u8]) -> Option<Refusal> {
    Packed::new(bytes, Width::new(5).unwrap()).err()
}

fn unplaced(reason: Reason) -> Option<Refusal> {
    Some(Refusal::unplaced(reason))
}

fn stray(charge: u64) -> Option<Refusal> {
    Some(Refusal::at(Reason::Stray, charge))
}

#[test]
fn whole_rows_only(rt: HostRuntime) {
    let refusals = [
        refusal(&[]),
        refusal(&[0; 3]),
        refusal(&[32, 0, 0, 0, 0]),
        refusal(&[33, 0, 0, 0, 0]),
    ];
    let ragged = unplaced(Reason::Ragged);
    assert_eq!(rt; refusals, [None, ragged, ragged, ragged]);
}

// Rows of mark 1: so many before one that has mark 6 besides, and so many after it.
fn rows(heap: Global, before: usize, after: usize) -> Result<Vec<u8>, AllocError> {
    let mut bytes = [1, 0, 0, 0].repeat(heap, before)?;
    bytes.extend_from_slice(&[33, 0, 0, 0])?;
    bytes.extend_from_slice([1, 0, 0, 0].repeat(heap, after)?.as_slice())?;
    Ok(bytes)
}

// At most 65,536 charges; whole rows count before that, and both before marks.
#[test]
fn at_most_65536_charges(rt: HostRuntime) -> Result<(), Fail> {
    let refusals = [
        refusal(vec![in rt.alloc(); 0; 262_144]?.as_slice()),
        refusal(vec![in rt.alloc(); 32; 262_148]?.as_slice()),
        refusal(vec![in rt.alloc(); 32; 262_149]?.as_slice()),
    ];
    let due = [None, unplaced(Reason::TooMany), unplaced(Reason::Ragged)];
    assert_eq!(rt; refusals, due);
    let most = [1, 0, 0, 0].repeat(rt.alloc(), 65_536)?;
    let mut more = rows(rt.alloc(), 0, 65_536)?;
    let whole = refusal(more.as_slice());
    more.push(0)?;
    let refusals = [refusal(most.as_slice()), whole, refusal(more.as_slice())];
    assert_eq!(rt; refusals, due);
    Ok(())
}

// Marks 1 and 6 in one row, and mark 1 in the others.
#[test]
fn no_mark_above_the_width(rt: HostRuntime) {
    let refusals = [
        refusal(&[33, 0, 0, 0, 1, 0, 0, 0, 1, 0, 0, 0]),
        refusal(&[1, 0, 0, 0, 33, 0, 0, 0, 1, 0, 0, 0]),
        refusal(&[1, 0, 0, 0, 1, 0, 0, 0, 33, 0, 0, 0]),
    ];
    assert_eq!(rt; refusals, [stray(1), stray(2), stray(3)]);
}

#[test]
fn a_stray_mark_in_the_last_row(rt: HostRuntime) -> Result<(), Fail> {
    let mut bytes = vec![in rt.alloc(); 0; 262_140]?;
    bytes.extend_from_slice(&[33, 0, 0, 0])?;
    assert_eq!(rt; refusal(bytes.as_slice()), stray(65_536));
    Ok(())
}

#[test]
fn a_stray_mark_among_rows_of_mark_1(rt: HostRuntime) -> Result<(), Fail> {
    for (before, after, charge) in [(0, 4, 1), (2, 2, 3), (4, 0, 5), (65_535, 0, 65_536)] {
        let bytes = rows(rt.alloc(), before, after)?;
        assert_eq!(rt; refusal(bytes.as_slice()), stray(charge), "{charge}");
    }
    Ok(())
}

#[test]
fn rows_are_what_the_bytes_say(rt: HostRuntime) -> Result<(), Fail> {
    let bytes = [3, 0, 0, 0, 0, 1, 2, 128];
    let table = Packed::new(&bytes, Width::new(32)?)?;
    assert_eq!(rt; (table.width().get(), table.count()), (32, 2));
    for (charge, bits) in [(1, 3), (2, 0x8002_0100), (3, 0), (65_536, 0)] {
        assert_eq!(rt; table.row(Charge::new(charge)?).bits(), bits);
    }
    Ok(())
}

// The support and the closure of a set in the charges 1 2, 1 2 3 and 3, at width 4.
fn holding(set: u32) -> Result<(u32, u32), Refusal> {
    let bytes = [3, 0, 0, 0, 7, 0, 0, 0, 4, 0, 0, 0];
    let table = Packed::new(&bytes, Width::new(4)?)?;
    let holding = Holding::of(&table, MarkSet::from_bits(set));
    Ok((holding.support(), holding.closure().bits()))
}

#[test]
fn support_and_closure(rt: HostRuntime) {
    let holdings = [holding(1), holding(8), holding(0)];
    assert_eq!(rt; holdings, [Ok((2, 3)), Ok((0, 15)), Ok((3, 0))]);
}
