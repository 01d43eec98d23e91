// Supports.
use crate::numbers::{Kind, MOST_CHARGES, Number};

/// The kind of supports.
pub enum SupportKind {}

impl Kind for SupportKind {
    const NAME: &'static str = "Support";
}

/// A support: how many charges hold a set of marks, as the least number that is asked for.
pub type Support = Number<SupportKind, MOST_CHARGES>;
