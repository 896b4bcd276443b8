// Tests of how a file to plan and a claim are read: tables of files, each with the answer that it must have.
#![tactic(auto)]

#[cfg(test)]
mod answer;
#[cfg(test)]
mod bounds;
#[cfg(test)]
mod claims;
#[cfg(test)]
mod lines;
#[cfg(test)]
mod long;
#[cfg(test)]
mod plans;
