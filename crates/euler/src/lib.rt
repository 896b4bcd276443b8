// From round uses to the steps of a tour.
#![tactic(auto)]

mod answer;
mod choice;
mod copies;
mod laws;
mod pass;
mod room;
mod run;
mod stretch;
mod touching;
mod tracing;
mod walking;

pub use answer::{Unwalked, Walked};
pub use laws::{never_parts, round_is_tour, round_is_walked};
pub use room::STEPS;
pub use walking::{walk_round, walk_uses};
