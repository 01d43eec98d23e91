// Columns at their edges, and tables turned into columns.
use crate::ledger::Ledger;
use marks::{Charge, Reason, Refusal, Width};
use std::alloc::Global;
use std::test::Fail;
use tables::{Columns, Table, turn};

// The refusal of these words as columns at width 3, if they are refused.
fn refusal(words: &[u64], count: u64) -> Option<Refusal> {
    Columns::new(words, Width::new(3).unwrap(), count).err()
}

fn stray(mark: u64) -> Option<Refusal> {
    Some(Refusal::at(Reason::Stray, mark))
}

#[test]
fn so_many_words(rt: HostRuntime) {
    let refusals = [
        refusal(&[], 0),
        refusal(&[0], 0),
        refusal(&[0; 2], 1),
        refusal(&[0; 3], 64),
        refusal(&[0; 4], 64),
        refusal(&[0; 6], 65),
    ];
    let count = Some(Refusal::unplaced(Reason::WordCount));
    assert_eq!(rt; refusals, [None, count, count, None, count, None]);
}

#[test]
fn at_most_65536_charges(rt: HostRuntime) -> Result<(), Fail> {
    let words = vec![in rt.alloc(); u64::MAX; 3072]?;
    let refusals = [
        refusal(words.as_slice(), 65_536),
        refusal(words.as_slice(), 65_537),
        refusal(&[], u64::MAX),
    ];
    let too_many = Some(Refusal::unplaced(Reason::TooMany));
    assert_eq!(rt; refusals, [None, too_many, too_many]);
    let zeros = vec![in rt.alloc(); 0; 3072]?;
    let mut first = vec![in rt.alloc(); u64::MAX; 1]?;
    first.resize(3072, 0)?;
    let refusals = [
        refusal(first.as_slice(), 65_536),
        refusal(zeros.as_slice(), 65_537),
    ];
    assert_eq!(rt; refusals, [None, too_many]);
    Ok(())
}

// The words are counted before a bit past the count is seen.
#[test]
fn no_bit_past_the_count(rt: HostRuntime) {
    let refusals = [
        refusal(&[1 << 63, 0, 0], 63),
        refusal(&[0, 0, 1 << 63], 63),
        refusal(&[0, 2, 0], 1),
        refusal(&[0, 0, 0, 0, 0, 2], 65),
        refusal(&[0, 0, 0, 0, 2, 0], 65),
        refusal(&[0, 0, 0, 0, 2], 65),
    ];
    let count = Some(Refusal::unplaced(Reason::WordCount));
    assert_eq!(rt;
        refusals,
        [stray(1), stray(3), stray(2), stray(3), None, count]
    );
}

// Rows that are all unlike, of the marks up to 20.
fn ledger(heap: Global, count: u32) -> Result<Ledger, Fail> {
    let rows = (0..count)
        .map(|row| row.wrapping_mul(2_654_435_761) >> 12)
        .collect(heap)?;
    Ok(Ledger::new(rows, Width::new(20)?))
}

// Whether columns made from a table of so many charges have its rows, asked one by one and once past the last.
fn turns(heap: Global, count: u32, size: usize) -> Result<bool, Fail> {
    let table = ledger(heap, count)?;
    let mut words: Vec<u64> = vec![in heap; u64::MAX; size]?;
    turn(&table, words.as_mut_slice())?;
    let columns = Columns::new(words.as_slice(), table.width(), u64::from(count))?;
    let mut charges = Charge::up_to(count.saturating_add(1));
    let same = charges.all(|charge| columns.row(charge) == table.row(charge));
    Ok(same && columns.count() == count && columns.width() == table.width())
}

#[test]
fn turned_tables_are_the_same(rt: HostRuntime) -> Result<(), Fail> {
    for (count, size) in [
        (0, 0),
        (1, 20),
        (63, 20),
        (64, 20),
        (65, 40),
        (65_536, 20_480),
    ] {
        assert!(rt; turns(rt.alloc(), count, size)?, "{count}");
    }
    Ok(())
}

#[test]
fn turning_wants_its_words(rt: HostRuntime) -> Result<(), Fail> {
    let table = ledger(rt.alloc(), 65)?;
    let (mut short, mut long) = ([7; 39], [7; 41]);
    let answers = [turn(&table, &mut short), turn(&table, &mut long)];
    assert_eq!(rt; answers, [Err(Refusal::unplaced(Reason::WordCount)); 2]);
    assert_eq!(rt; (short, long), ([7; 39], [7; 41]));
    Ok(())
}
