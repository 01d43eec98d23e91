// A whole list: a finder is worked to its end.
ghost use Rattle.std.specs.Prelude.{IfOk};
ghost use Rattle.closed.specs.Closed.{query};
ghost use Rattle.finder.specs.Whole.{WholeOf};

use crate::finder::Finder;
use crate::step::Step;
use found::{RECORD_BYTES, Record};
use limits::Limit;
use marks::Support;
use std::alloc::{AllocError, Global};
use tables::Table;

/// A whole list: its records in order, and how many nodes were opened for them.
#[derive(PartialEq, Eq, Debug, Drop)]
pub struct WholeList {
    pub records: Vec<Record>,
    pub opened: u64,
}

/// Works a finder that is fresh from begin until it answers End, and answers the records that it handed out.
/// The one error is want of memory, which is no refusal.
pub fn whole_list<T: Table, W: Limit>(
    alloc: Global,
    table: &T,
    limit: &W,
    support: Support,
) -> Result<WholeList, AllocError>
    ensures { IfOk result (λ whole. WholeOf (query (T.Table.meaning table.now) (W.Limit.allowed limit.now) support.number) whole) }
{
    let mut finder = Finder::begin(table, limit, support);
    let mut records = Vec::new(alloc);
    let mut slot = [0; RECORD_BYTES];
    // A `loop`, and no `while let`, since End carries what was opened.
    loop {
        // No call is refused, since the slot has the length of a record.
        match finder.next(&mut slot).unwrap() {
            Step::Found => records.push(Record::from_bytes(&slot))?,
            Step::End { opened, .. } => return Ok(WholeList { records, opened }),
        }
    }
}
