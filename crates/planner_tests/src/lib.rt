// Tests of the planner from outside: worked lists, and small houses beside the shortest of all walks.
#![tactic(auto)]

#[cfg(test)]
mod forms;
#[cfg(test)]
mod houses;
#[cfg(test)]
mod planned;
#[cfg(test)]
mod tests;
#[cfg(test)]
mod walks;
