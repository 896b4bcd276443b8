// Partial tours: what the next aisle costs, the table of the shortest of each class, and the choices of the best plan, read back from it.
#![tactic(auto)]

mod choice;
mod choosing;
mod ending;
mod fill;
mod prices;
mod row;
mod table;
mod trace;

pub use choice::Choice;
pub use choosing::{best_choices, best_numbers};
pub use table::CELLS;
