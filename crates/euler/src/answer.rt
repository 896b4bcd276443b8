// What is answered where uses are made into the steps of a tour.
ghost use Rattle.std.specs.Prelude.{◌≡◌};
ghost use Rattle.euler.specs.declared.answer.Unwalked.TheVariants.{Refused};

use house::Refusal;

// The number of steps of a tour, and its length.
#[derive(Clone, Copy, Debug, PartialEq, Eq)]
pub struct Walked {
    pub steps: usize,
    pub length: u32,
}

// Why uses are not made into a tour.
#[derive(Clone, Copy, Debug, PartialEq, Eq)]
pub enum Unwalked {
    // memory that is too short
    Refused(Refusal),
    // no tour has these uses
    NotRound,
}

impl From<Refusal> for Unwalked {
    ghost from_gives = { λ e r. r ≡ Refused e };

    fn from(refusal: Refusal) -> Unwalked {
        Unwalked::Refused(refusal)
    }
}
