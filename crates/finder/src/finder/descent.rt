// How a finder opens nodes: the one function that opens a node and counts it, and the way down from a node to its first leaf.
ghost use Rattle.std.specs.Option.{option_map_or};
ghost use Rattle.std.specs.Prelude.{◌≡◌, IfSome};
ghost use Rattle.marks.specs.Sets.{no_marks, minus, either};
ghost use Rattle.finder.specs.Asked.{asked};
ghost use Rattle.finder.specs.Calls.{query_of};
ghost use Rattle.finder.specs.Descents.{opened_node, one_more, start_of, Ready, Landed, Turned, TurnedAside};
ghost use Rattle.finder.specs.Found.{ordinal_of};

use super::{Finder, Last};
use crate::narrowing::{Node, Query};
use limits::Limit;
use marks::MarkSet;
use tables::Table;

// Where a descent ends: a listed set, its support, and its marks at which a node is still to be opened.
#[derive(Clone, Copy, PartialEq, Eq, Debug)]
pub(crate) struct Leaf {
    pub set: MarkSet,
    pub support: u32,
    pub turns: MarkSet,
}

// Where the next set lies: the node that is opened for it, and the marks above it at which a node is still to be opened.
#[derive(Clone, Copy, PartialEq, Eq, Debug)]
pub(crate) struct Start {
    pub node: Node,
    pub turns: MarkSet,
}

impl Node {
    // Of all marks, those that are neither put in nor put out.
    fn free(self, all: MarkSet) -> MarkSet
        ensures { result.bits ≡ minus all.bits (either self.ins.bits self.outs.bits) }
    {
        all.difference(self.ins.union(self.outs))
    }
}

// `opened` is lent to each step beside the query, which no step changes.
impl<T: Table, W: Limit> Query<T, W> {
    // Opens the node with these marks put in and put out, and counts it.
    fn open(&self, ins: MarkSet, outs: MarkSet, opened: &mut u64) -> Option<Node>
        ensures node { result ≡ opened_node (asked T.Table.meaning W.Limit.allowed self.now) ins.bits outs.bits }
        ensures counted { opened.new ≡ one_more opened.old }
    {
        *opened = opened.saturating_add(1);
        self.narrow(ins, outs).ok()
    }

    // Goes down from a node to its first leaf: while a mark is free, the lowest one is put in.
    pub(crate) fn descend(&self, start: Start, opened: &mut u64) -> Leaf
        requires { Ready (asked T.Table.meaning W.Limit.allowed self.now) start.node }
        ensures { Landed (asked T.Table.meaning W.Limit.allowed self.now) start opened.old result opened.new }
    {
        let all = MarkSet::up_to(self.table.width());
        let Start {
            mut node,
            mut turns,
        } = start;
        // A `while let` and no `for`: which mark comes next depends on the node that was opened last.
        while let Some(mark) = node.free(all).lowest() {
            node = self.open(node.ins.with(mark), node.outs, opened).unwrap();
            turns = turns.with(mark);
        }
        Leaf {
            set: node.ins,
            support: node.support,
            turns,
        }
    }

    // Opens the root.
    fn start_at_root(&self, opened: &mut u64) -> Option<Start>
        ensures node { result ≡ start_of (opened_node (asked T.Table.meaning W.Limit.allowed self.now) no_marks no_marks) no_marks }
        ensures counted { opened.new ≡ one_more opened.old }
    {
        let node = self.open(MarkSet::empty(), MarkSet::empty(), opened)?;
        Some(Start {
            node,
            turns: MarkSet::empty(),
        })
    }

    // Opens the node of the sets that agree with the last one below the highest mark where a node is still to be opened, and lack that mark.
    fn turn_aside(&self, last: Last, opened: &mut u64) -> Option<Start>
        ensures { TurnedAside (asked T.Table.meaning W.Limit.allowed self.now) last.found.set.bits last.turns.bits opened.old result opened.new }
    {
        let mark = last.turns.highest()?;
        let below = MarkSet::below(mark);
        let outs = below.difference(last.found.set).with(mark);
        let node = self.open(last.found.set.intersection(below), outs, opened)?;
        Some(Start {
            node,
            turns: last.turns.without(mark),
        })
    }
}

impl<T: Table, W: Limit> Finder<T, W> {
    // Opens the node below which the next set lies: the root if no set came yet, and else the node at the highest mark where one is still to be opened, with that mark put
    // out. None if there is no such node, or no set fits the root: then no set is left.
    pub(crate) fn turn(&self, opened: &mut u64) -> Option<Start>
        ensures ready { IfSome result (λ start. Ready (query_of self.now) start.node) }
        ensures turned { opened.old ≡ option_map_or (λ last. last.found.opened) self.now.last 0 → Turned (query_of self.now) (ordinal_of self.now.last) result opened.new }
    {
        // A `match`, and no `map_or_else`: its two closures could not both hold `opened`, which is lent to be changed.
        match self.last {
            Some(last) => self.query.turn_aside(last, opened),
            None => self.query.start_at_root(opened),
        }
    }
}
