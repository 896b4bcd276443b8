// The kinds of use of an aisle, and what a use can do to the two ends of its aisle.

// The steps of an aisle from one depth to another.
#[derive(Clone, Copy, Debug, PartialEq, Eq)]
pub struct Gap {
    pub lo: u8,
    pub hi: u8,
}

#[derive(Clone, Copy, Debug, PartialEq, Eq)]
pub enum AisleUse {
    // every step once
    Once,
    // every step twice
    Twice,
    // every step twice but for those of a gap, which are not used
    Leaving(Gap),
}

#[derive(Clone, Copy, Debug, PartialEq, Eq)]
pub enum Effect {
    // the aisle is not entered
    Nothing,
    // entered and left at the front
    FromFront,
    // entered and left at the back
    FromBack,
    // entered and left at the front, and at the back too
    BothEnds,
    // walked through
    ThroughOnce,
    // walked through both ways
    ThroughTwice,
}

impl Effect {
    // Each effect at the place of its number, `effect as u8`.
    pub const ALL: [Effect; 6] = [
        Effect::Nothing,
        Effect::FromFront,
        Effect::FromBack,
        Effect::BothEnds,
        Effect::ThroughOnce,
        Effect::ThroughTwice,
    ];
}
