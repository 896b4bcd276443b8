// What an aisle may cost: the kinds of use of an aisle, its picks in order of depth, and the cheapest use for each effect on its ends.
#![tactic(auto)]

mod ends;
mod in_order;
mod kinds;
mod laws;
mod least;
mod parts;
mod reach;

pub use ends::Ends;
pub use in_order::{PICKS, sort_picks};
pub use kinds::{AisleUse, Effect, Gap};
pub use laws::{best_is_least, kinds_enough, neighbours_enough, sorted_by_aisle, sorted_is_exact};
pub use least::{cheapest, cheapest_past};
pub use parts::part_end;
pub use reach::Reach;
