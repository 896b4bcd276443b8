// What steps and rows of steps are long.
ghost use Rattle.std.specs.Prelude.{◌≡◌};
ghost use Rattle.house.specs.Reading.{house_of};
ghost use Rattle.walk.specs.Codes.{byte_of};
ghost use Rattle.walk.specs.Steps.{worth, measure};

use crate::step::Step;
use house::House;

pub fn worth(house: House, step: Step) -> u8
    ensures { result ≡ worth (house_of house) (byte_of step) }
{
    match step {
        Step::Deeper | Step::Back => 1,
        Step::NextFront | Step::BeforeFront | Step::NextBack | Step::BeforeBack => house.apart,
    }
}

// A byte that is no step is 0 long.
fn byte_worth(house: House, byte: u8) -> u8
    ensures { result ≡ worth (house_of house) byte }
{
    Step::try_from(byte).map_or(0, |step| worth(house, step))
}

// The length of a row of step bytes. No row that fits in memory is too long for the type of the sum: a step is at most 200 long.
#[tactic(auto, using(crate::proofs::Chains::measure_sum))]
pub fn measure(house: House, way: &[u8]) -> u128
    ensures { result ≡ measure (house_of house) way.now }
{
    way.iter()
        .map(|byte| u128::from(byte_worth(house, *byte)))
        .sum()
}
