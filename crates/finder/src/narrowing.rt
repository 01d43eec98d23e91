// Narrowing a node to what all listed sets that fit it have in common.
ghost use Rattle.std.specs.Prelude.{◌≡◌, not, ◌&&◌, IfOk, slice_index_or};
ghost use Rattle.marks.specs.Refusals.{Answers};
ghost use Rattle.marks.specs.Sets.{has, picked};
ghost use Rattle.closed.specs.Closed.{query, listed, clash, ListLaws, Refuses, narrow_refusal};
ghost use Rattle.closed.specs.Walks.{Exact};
ghost use Rattle.finder.specs.Asked.{asked};
ghost use Rattle.finder.specs.Nodes.{node_of, holding_passes};
ghost use Rattle.finder.specs.Tallies.{no_holding};

use crate::tally::Tally;
use limits::Limit;
use marks::{MarkSet, Reason, Refusal, Support, Width};
use tables::{Holding, Table};

/// A node after narrowing: the marks that are put in, those that are put out, and how many charges hold those that are put in.
#[derive(Clone, Copy, PartialEq, Eq, Debug)]
pub struct Node {
    pub ins: MarkSet,
    pub outs: MarkSet,
    pub support: u32,
}

// What a list is made of: a table, a limit, and the least support.
// Its ghost query is spelled out as `asked ..` in each contract, so that this type has no bounds.
// The public calls take its parts one by one, as their callers have them.
#[derive(Drop)]
pub(crate) struct Query<T, W> {
    pub table: T,
    pub limit: W,
    pub support: Support,
}

// Whether the two sets share a mark, or either has one above the width.
fn clashes(width: Width, ins: MarkSet, outs: MarkSet) -> bool
    ensures { result ≡ clash width.number ins.bits outs.bits }
{
    let all = MarkSet::up_to(width);
    !ins.intersection(outs).is_empty() || !ins.is_part_of(all) || !outs.is_part_of(all)
}

// The marks put in and those put out are two parameters, as a node has them.
impl<T: Table, W: Limit> Query<T, W> {
    // Whether the closure of a set is wanted, and has no mark that is put out. The limit is asked about the closure, not about the set.
    fn wants(&self, holding: Holding, outs: MarkSet) -> bool
        ensures { result ≡ holding_passes (asked T.Table.meaning W.Limit.allowed self.now) outs.bits holding }
    {
        self.support.get() <= holding.support()
            && self.limit.allows(holding.closure())
            && holding.closure().intersection(outs).is_empty()
    }

    // The marks up to the width that are in no listed set that fits. A mark that is put in is in each of them. One that is put out was skipped by the tally: its record has support 0, so it is in none.
    fn excluded(&self, tally: &Tally, width: Width, ins: MarkSet, outs: MarkSet) -> MarkSet
        ensures { result.bits ≡ picked (λ b. not (has ins.bits b) && not (holding_passes (asked T.Table.meaning W.Limit.allowed self.now) outs.bits (slice_index_or tally.now.marks b no_holding))) width.number }
    {
        let all = MarkSet::up_to(width);
        all.filter(|mark| !ins.holds(mark) && !self.wants(tally.with(mark), outs))
    }

    // Narrows the node with these marks put in and put out.
    pub fn narrow(&self, ins: MarkSet, outs: MarkSet) -> Result<Node, Refusal>
        ensures { Answers (narrow_refusal (asked T.Table.meaning W.Limit.allowed self.now) ins.bits outs.bits) (λ node. node ≡ node_of (asked T.Table.meaning W.Limit.allowed self.now) ins.bits outs.bits) result }
    {
        let width = self.table.width();
        if clashes(width, ins, outs) {
            return Err(Refusal::unplaced(Reason::Clash));
        }
        let tally = Tally::besides(&self.table, ins, ins.union(outs));
        let own = tally.own();
        if !self.wants(own, outs) {
            return Err(Refusal::unplaced(Reason::DeadEnd));
        }
        Ok(Node {
            ins: own.closure(),
            outs: self.excluded(&tally, width, ins, outs),
            support: own.support(),
        })
    }
}

/// Narrows the node with these marks put in and put out: the new marks in are those of every listed set that holds all of `ins` and none of `outs`, the new marks out are the marks up to the
/// width that are in none of them.
/// Refused: CLASH if the two sets share a mark or either has a mark above the width; DEAD END exactly if no listed set fits.
pub fn narrow<T: Table, W: Limit>(
    table: &T,
    limit: &W,
    support: Support,
    ins: MarkSet,
    outs: MarkSet,
) -> Result<Node, Refusal>
    ensures answer { Answers (narrow_refusal (query (T.Table.meaning table.now) (W.Limit.allowed limit.now) support.number) ins.bits outs.bits) (λ node. node ≡ node_of (query (T.Table.meaning table.now) (W.Limit.allowed limit.now) support.number) ins.bits outs.bits) result }
    ensures exact { IfOk result (λ node. Exact (listed (query (T.Table.meaning table.now) (W.Limit.allowed limit.now) support.number)) (T.Table.meaning table.now).width ins.bits outs.bits node.ins.bits node.outs.bits) }
    ensures refusals { Refuses (query (T.Table.meaning table.now) (W.Limit.allowed limit.now) support.number) ins.bits outs.bits result }
    ensures laws { ListLaws (query (T.Table.meaning table.now) (W.Limit.allowed limit.now) support.number) }
{
    let query = Query {
        table,
        limit,
        support,
    };
    query.narrow(ins, outs)
}
