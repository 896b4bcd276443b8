// Walks through a house: their steps, their length, and the checker of a way.
#![tactic(auto)]

mod checker;
mod going;
mod laws;
mod length;
mod marks;
mod shown;
mod step;
mod verdict;

pub use checker::{check, only_steps};
pub use going::{DESK, landing};
pub use laws::{bytes_tell_the_walk, checking_is_exact, not_beyond};
pub use length::{measure, worth};
pub use marks::cell;
pub use step::{Step, UnknownStep};
pub use verdict::Verdict;
