// The six steps of a way, and the byte that each is written as.
ghost use Rattle.std.specs.Prelude.{◌≡◌, Some};
ghost use Rattle.walk.specs.Codes.{byte_of, StepOf};
ghost use Rattle.walk.specs.Shown.{unknown_line};

use std::error::Error;
use std::fmt;

#[derive(Clone, Copy, Debug, PartialEq, Eq)]
pub enum Step {
    // one step deeper in the aisle, or one towards the front way
    Deeper,
    Back,
    // along the front way to the next aisle, or to the one before
    NextFront,
    BeforeFront,
    // the same along the back way
    NextBack,
    BeforeBack,
}

// A byte above 5, which no step is written as.
#[derive(Clone, Copy, Debug, PartialEq, Eq)]
pub struct UnknownStep(pub u8);

impl Step {
    // in the order of their bytes
    pub const ALL: [Step; 6] = [
        Step::Deeper,
        Step::Back,
        Step::NextFront,
        Step::BeforeFront,
        Step::NextBack,
        Step::BeforeBack,
    ];
}

impl From<Step> for u8 {
    ghost from_gives = { λ step byte. byte ≡ byte_of step };

    fn from(step: Step) -> u8 {
        step as u8
    }
}

impl TryFrom<u8> for Step {
    type Error = UnknownStep;

    ghost try_from_gives = { StepOf };

    fn try_from(byte: u8) -> Result<Step, UnknownStep> {
        let step = Step::ALL.get(usize::from(byte)).copied();
        step.ok_or(UnknownStep(byte))
    }
}

impl fmt::Display for UnknownStep {
    ghost output = { λ unknown. Some (unknown_line unknown) };

    fn fmt<W: fmt::Write>(&self, f: &mut fmt::Formatter<W>) -> fmt::Result {
        write!(f, "no step has byte {}", self.0)
    }
}

impl Error for UnknownStep {}
