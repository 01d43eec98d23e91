// What a limit is.
ghost use Rattle.std.specs.Prelude.{◌≡◌, ℕ, Bool};
ghost use Rattle.limits.specs.Limits.{AllowsParts};

use marks::MarkSet;

/// A limit on which sets are listed. The answer follows from what it allows, so it is the same each time.
pub trait Limit {
    /// Which sets the limit allows.
    ghost allowed: { Self → ℕ → Bool };

    /// Whether the limit allows the set.
    fn allows(&self, set: MarkSet) -> bool
        ensures { result ≡ allowed self.now set.bits };

    // Where a limit allows a set, it allows every part of that set.
    ghost parts: { (limit : Self) → AllowsParts (allowed limit) };
}

// A limit that is lent is a limit.
impl<U: Limit> Limit for &U {
    ghost allowed = { λ limit. U.Limit.allowed limit.now };

    fn allows(&self, set: MarkSet) -> bool {
        (**self).allows(set)
    }

    ghost parts = { λ limit. U.Limit.parts limit.now };
}
