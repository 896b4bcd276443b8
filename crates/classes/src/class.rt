// The classes of partial tours (Ratliff and Rosenthal's equivalence classes), and the passages from an aisle to the next.

// A partial tour is what is used in the first aisles and on the passages between them. Of its last aisle it matters whether
// an odd number of uses meets at the front and at the back, an even number or none, and whether the used parts are one piece.
#[derive(Clone, Copy, Debug, PartialEq, Eq)]
pub enum Class {
    // odd at the front and at the back, in one piece
    OddOdd,
    // even at the back, none at the front
    EvenBack,
    // even at the front, none at the back
    EvenFront,
    // even at both, in one piece
    EvenOne,
    // even at both, in two pieces, one with the front and one with the back
    EvenTwo,
    // nothing is used yet
    NothingYet,
    // the tour is complete, and nothing more is used
    Closed,
}

#[derive(Clone, Copy, Debug, PartialEq, Eq)]
pub enum Passage {
    None,
    // one at the front and one at the back
    OneEach,
    TwoFront,
    TwoBack,
    // two at the front and two at the back
    TwoEach,
}

impl Class {
    // Each class at the place of its number, `class as u8`.
    pub const ALL: [Class; 7] = [
        Class::OddOdd,
        Class::EvenBack,
        Class::EvenFront,
        Class::EvenOne,
        Class::EvenTwo,
        Class::NothingYet,
        Class::Closed,
    ];
}

impl Passage {
    // Each of the passages at the place of its number, `passage as u8`.
    pub const ALL: [Passage; 5] = [
        Passage::None,
        Passage::OneEach,
        Passage::TwoFront,
        Passage::TwoBack,
        Passage::TwoEach,
    ];
}
