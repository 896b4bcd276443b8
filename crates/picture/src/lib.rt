// A picture of a tour: the house from above, its picks, and the way with its direction.
#![tactic(auto)]

mod floor;
mod places;
mod sheet;
mod strokes;

pub use sheet::picture;
