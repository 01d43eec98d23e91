// The limit on weights.
ghost use Rattle.std.specs.Prelude.{◌≡◌};
ghost use Rattle.limits.specs.Limits.{light, weight_of};
ghost use Rattle.limits.specs.Parts.{light_parts};

use crate::limit::Limit;
use marks::{MARKS, MarkSet};

/// The weights of the 32 marks, that of mark i at i - 1.
pub type Weights = [u16; MARKS];

/// Allows sets whose marks weigh at most a cap together.
#[derive(Clone, Copy, PartialEq, Eq, Debug)]
pub struct Weight {
    weights: Weights,
    cap: u32,
}

impl Weight {
    /// The limit of this cap.
    pub fn new(weights: Weights, cap: u32) -> Weight
        ensures { result ≡ record { weights = weights; cap = cap } }
    {
        Weight { weights, cap }
    }

    // What the marks of a set weigh together.
    fn weigh(&self, set: MarkSet) -> u64
        ensures { result ≡ weight_of self.now.weights set.bits }
    {
        set.marks()
            .map(|mark| u64::from(self.weights[mark.place()]))
            .sum()
    }
}

impl Limit for Weight {
    ghost allowed = { λ limit. light limit.weights limit.cap };

    fn allows(&self, set: MarkSet) -> bool {
        self.weigh(set) <= u64::from(self.cap)
    }

    ghost parts = { λ limit. light_parts limit.weights limit.cap };
}
