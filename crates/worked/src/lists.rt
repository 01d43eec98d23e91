// What is listed of the sample.
ghost use Rattle.std.specs.Prelude.{◌≡◌, IfOk};
ghost use Rattle.worked.specs.Sample.{answer, opened, Worked};

use crate::charges::sample;
use finder::{WholeList, whole_list};
use limits::{Size, Weight, Weights};
use marks::{Charge, Support};
use std::alloc::{AllocError, Global};
use tables::{Choice, Selection, Window};

/// Which sets to list. Where nothing else is said: sets of any size that at least two charges of the sample hold.
#[derive(Clone, Copy, PartialEq, Eq, Debug)]
pub enum Listing {
    HeldTwice,
    /// That at least one charge holds.
    HeldOnce,
    /// That at least six charges hold.
    HeldSixTimes,
    /// Of at most two marks.
    TwoMarks,
    /// Of at most one mark.
    OneMark,
    /// That weigh at most 6, where mark 1 weighs 3, mark 2 weighs 4, and the others weigh nothing.
    Light,
    /// Among the three charges from charge 2 on.
    InWindow,
    /// Of marks 4 and 2 alone, which become marks 1 and 2.
    InSelection,
}

const WEIGHTS: Weights = [
    3, 4, 0, 0, 0, 0, 0, 0, 0, 0, 0, 0, 0, 0, 0, 0, 0, 0, 0, 0, 0, 0, 0, 0, 0, 0, 0, 0, 0, 0, 0, 0,
];

/// Lists these sets. The one error is want of memory, which is no refusal.
#[tactic(auto, using(crate::proofs::Computed::worked))]
pub fn list(alloc: Global, listing: Listing) -> Result<WholeList, AllocError>
    ensures answer { IfOk result (λ whole. (whole.records.items ≡ answer listing) × (whole.opened ≡ opened listing)) }
    ensures worked { Worked }
{
    let table = sample();
    let any = Size::new(5);
    let twice = Support::new(2).unwrap();
    match listing {
        Listing::HeldTwice => whole_list(alloc, &table, &any, twice),
        Listing::HeldOnce => whole_list(alloc, &table, &any, Support::new(1).unwrap()),
        Listing::HeldSixTimes => whole_list(alloc, &table, &any, Support::new(6).unwrap()),
        Listing::TwoMarks => whole_list(alloc, &table, &Size::new(2), twice),
        Listing::OneMark => whole_list(alloc, &table, &Size::new(1), twice),
        Listing::Light => whole_list(alloc, &table, &Weight::new(WEIGHTS, 6), twice),
        Listing::InWindow => {
            let window = Window::new(table, Charge::new(2).unwrap(), 3);
            whole_list(alloc, &window, &any, twice)
        }
        Listing::InSelection => {
            let selection = Selection::new(table, Choice::new(&[4, 2]).unwrap());
            whole_list(alloc, &selection, &any, twice)
        }
    }
}
