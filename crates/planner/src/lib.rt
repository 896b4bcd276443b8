// The planner: the best plan's uses are laid down and walked, and no tour is shorter.
#![tactic(auto)]

mod laws;
mod lay;
mod memory;
mod planning;

pub use aisle::PICKS;
pub use classes::{
    Class, Passage, closes, closings_by_rule, opening, transition, transitions_by_rule,
};
pub use euler::STEPS;
pub use laws::{
    exchange, plans_are_round, plans_enough, plans_have_classes, rows_are_least, shortest_exists,
    table_is_least, worked_lengths,
};
pub use memory::Lent;
pub use partial::CELLS;
pub use planning::plan;
pub use uses::ROOM as USES;
