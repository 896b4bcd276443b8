// The way as text: its pieces without a turn, their lines, and what the programs decide.
#![tactic(auto)]

mod claims;
mod command;
mod laws;
mod lines;
mod piece;
mod pieces;
mod shown;

pub use claims::claim;
pub use command::{
    CheckCommand, Misuse, PlanCommand, Source, check_command, check_command_from, plan_command,
    plan_command_from,
};
pub use laws::{claims_of_tours_hold, pieces_are_the_steps};
pub use lines::way_text;
pub use piece::Piece;
pub use pieces::first_piece;
