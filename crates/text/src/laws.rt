// The theorems of this crate: each function asks for the proof of the statement that its contract names.
ghost use Rattle.text.specs.Promise.{PiecesAreTheSteps, ClaimsOfToursHold};

pub fn pieces_are_the_steps() -> u8
    ensures { PiecesAreTheSteps }
{
    0
}

pub fn claims_of_tours_hold() -> u8
    ensures { ClaimsOfToursHold }
{
    0
}
