// Tests of what an aisle may cost, and of its picks in order.
#![tactic(auto)]

#[cfg(test)]
mod costs;
#[cfg(test)]
mod sorting;
