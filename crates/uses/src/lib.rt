// How often each stretch of a house is used: uses in a lent slice, what they cost, and whether they are round.
#![tactic(auto)]

mod costing;
mod counting;
mod crossing;
mod flood;
mod flooding;
mod house_uses;
pub mod layout;
mod looking;
mod meets;
mod miscount;
mod room;
mod rounding;
mod stack;
mod theorems;

pub use costing::cost;
pub use counting::count;
pub use crossing::Crossing;
pub use house_uses::HouseUses;
pub use looking::look;
pub use miscount::Miscount;
pub use room::ROOM;
pub use rounding::is_round;
pub use theorems::{
    counted_is_round, counting_is_round, passages_are_even, tour_is_round, twice_enough,
    used_by_walk,
};
