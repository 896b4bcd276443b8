// Houses, pick lists and their reader.
#![tactic(auto)]

mod checks;
mod entries;
mod first;
mod laws;
mod layout;
mod parts;
mod picks;
mod reader;
mod refusal;
mod shown;

pub use entries::{Picks, picks_in};
pub use laws::{claims_are_exact, reading_is_exact};
pub use layout::{House, Spot};
pub use parts::{Claim, claim_of, list_of};
pub use picks::{ClaimedWay, PickList};
pub use reader::{read, read_claim};
pub use refusal::{Memory, Refusal};
