// Tests of the way as text, and of what the programs decide, over tables.
#![tactic(auto)]

#[cfg(test)]
mod claims;
#[cfg(test)]
mod commands;
#[cfg(test)]
mod lines;
