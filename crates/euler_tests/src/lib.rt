// Tests of uses made into tours: tables of uses, each with the answer that it must have.
#![tactic(auto)]

#[cfg(test)]
mod case;
mod lists;
#[cfg(test)]
mod not_round;
#[cfg(test)]
mod picks;
#[cfg(test)]
mod refused;
#[cfg(test)]
mod tours;

pub use lists::walk_list;
