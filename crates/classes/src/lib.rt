// The classes of partial tours, and how they go on from an aisle to the next.
#![tactic(auto)]

mod class;
mod going;
mod laws;

pub use class::{Class, Passage};
pub use going::{closes, opening, transition};
pub use laws::{closings_by_rule, transitions_by_rule};
