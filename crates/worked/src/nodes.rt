// What nodes of the sample are narrowed to.
ghost use Rattle.std.specs.Prelude.{◌≡◌};
ghost use Rattle.worked.specs.Sample.{ins, outs, narrowed, Worked};

use crate::charges::sample;
use finder::{Node, narrow};
use limits::Size;
use marks::{MarkSet, Refusal, Support};

/// Which node to narrow.
#[derive(Clone, Copy, PartialEq, Eq, Debug)]
pub enum Narrowing {
    /// Mark 1 is put out.
    WithoutOne,
    /// Mark 4 is put in.
    WithFour,
    /// Mark 4 is put in, and mark 2 is put out.
    WithFourWithoutTwo,
}

impl Narrowing {
    // The marks that are put in.
    fn ins(self) -> MarkSet
        ensures { result.bits ≡ ins self }
    {
        MarkSet::from_bits(match self {
            Narrowing::WithoutOne => 0b0000,
            Narrowing::WithFour | Narrowing::WithFourWithoutTwo => 0b1000,
        })
    }

    // The marks that are put out.
    fn outs(self) -> MarkSet
        ensures { result.bits ≡ outs self }
    {
        MarkSet::from_bits(match self {
            Narrowing::WithoutOne => 0b0001,
            Narrowing::WithFour => 0b0000,
            Narrowing::WithFourWithoutTwo => 0b0010,
        })
    }
}

/// Narrows the node, where sets of any size that at least two charges of the sample hold are listed.
#[tactic(auto, using(crate::proofs::Computed::worked))]
pub fn narrow_sample(narrowing: Narrowing) -> Result<Node, Refusal>
    ensures answer { result ≡ narrowed narrowing }
    ensures worked { Worked }
{
    let twice = Support::new(2).unwrap();
    narrow(
        &sample(),
        &Size::new(5),
        twice,
        narrowing.ins(),
        narrowing.outs(),
    )
}
