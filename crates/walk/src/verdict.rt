// What the checker answers of a way that stays in the house.
#[derive(Clone, Copy, Debug, PartialEq, Eq)]
pub enum Verdict {
    // a tour of this length
    Way(u128),
    // a walk from the desk that does not end there
    EndsElsewhere,
    // a walk from the desk back to it, and the first pick that it does not pass
    Misses(usize),
}
