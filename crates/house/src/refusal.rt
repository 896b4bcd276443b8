// Why a house, a pick list, a way or lent memory is refused.
ghost use Rattle.std.specs.Prelude.{◌≡◌};
ghost use Rattle.house.specs.Rules.{number_of, place_of, memory_of};

// The memories that a caller lends for planning, in the order in which they are told.
#[derive(Clone, Copy, Debug, PartialEq, Eq)]
pub enum Memory {
    // 512 picks
    Picks,
    // the tables of partial tours, for 64 aisles
    Tables,
    // 25,852 steps
    Steps,
    // 12,926 uses
    Uses,
}

#[derive(Clone, Copy, Debug, PartialEq, Eq)]
pub enum Refusal {
    // no aisle, or more than 64
    Aisles,
    // aisles less than 2 or more than 200 steps deep
    Deep,
    // aisles no step or more than 200 steps apart
    Apart,
    // a list of so many bytes that is not two for each pick, or has more than 512 picks
    List(usize),
    // a pick in an aisle that is not there
    NoAisle(usize),
    // a pick on the front way, on the back way or beyond
    NoShelf(usize),
    // a step that is none of the six
    NoStep(usize),
    // a step that leads out of the house
    LeadsOut(usize),
    // lent memory that is too short
    Short(Memory),
}

impl Memory {
    fn place(self) -> usize
        ensures { result ≡ memory_of self }
    {
        self as usize
    }
}

impl Refusal {
    // The rule that was broken. Of several the lowest decides, but for 9, which comes before all others.
    // Kept: (d) the kinds are an enum; its cases hold data, so that no cast gives the numbers that are printed.
    pub fn number(self) -> u8
        ensures { result ≡ number_of self }
    {
        match self {
            Refusal::Aisles => 1,
            Refusal::Deep => 2,
            Refusal::Apart => 3,
            Refusal::List(_) => 4,
            Refusal::NoAisle(_) => 5,
            Refusal::NoShelf(_) => 6,
            Refusal::NoStep(_) => 7,
            Refusal::LeadsOut(_) => 8,
            Refusal::Short(_) => 9,
        }
    }

    // Where it was broken: a byte of the file, the number of bytes of the list, a pick, a step, or one of the memories.
    pub fn place(self) -> usize
        ensures { result ≡ place_of self }
    {
        match self {
            Refusal::Aisles => 0,
            Refusal::Deep => 1,
            Refusal::Apart => 2,
            Refusal::List(bytes) => bytes,
            Refusal::NoAisle(pick) | Refusal::NoShelf(pick) => pick,
            Refusal::NoStep(step) | Refusal::LeadsOut(step) => step,
            Refusal::Short(memory) => memory.place(),
        }
    }
}
