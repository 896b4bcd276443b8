// Where a step leads from a spot of a house.
ghost use Rattle.std.specs.Prelude.{◌≡◌};
ghost use Rattle.std.specs.Option.{option_map};
ghost use Rattle.house.specs.Reading.{house_of, spot_of};
ghost use Rattle.walk.specs.Codes.{byte_of};
ghost use Rattle.walk.specs.Steps.{deeper, shallower, to_next, to_former, landing};

use crate::step::Step;
use house::{House, Spot};

// Where a tour begins and ends.
pub const DESK: Spot = Spot { aisle: 0, depth: 0 };

// The spot to which a step leads, or none where it leads out of the house.
pub fn landing(house: House, from: Spot, step: Step) -> Option<Spot>
    ensures { option_map spot_of result ≡ landing (house_of house) (spot_of from) (byte_of step) }
{
    // Kept: (d) one line for each step says where it leads; closures in a table would say the same, with the steps named once more.
    match step {
        Step::Deeper => further(house, from),
        Step::Back => nearer(from),
        Step::NextFront => next(house, from, 0),
        Step::BeforeFront => former(from, 0),
        Step::NextBack => next(house, from, house.deep),
        Step::BeforeBack => former(from, house.deep),
    }
}

// A byte that is no step leads out too.
pub(crate) fn onward(house: House, from: Spot, byte: u8) -> Option<Spot>
    ensures { option_map spot_of result ≡ landing (house_of house) (spot_of from) byte }
{
    let step = Step::try_from(byte).ok()?;
    landing(house, from, step)
}

fn further(house: House, from: Spot) -> Option<Spot>
    ensures { option_map spot_of result ≡ deeper (house_of house) (spot_of from) }
{
    let depth = from.depth.checked_add(1)?;
    (depth <= house.deep).then_some(Spot { depth, ..from })
}

fn nearer(from: Spot) -> Option<Spot>
    ensures { option_map spot_of result ≡ shallower (spot_of from) }
{
    let depth = from.depth.checked_sub(1)?;
    Some(Spot { depth, ..from })
}

// Along the way at this depth, the front way or the back way.
fn next(house: House, from: Spot, depth: u8) -> Option<Spot>
    ensures { option_map spot_of result ≡ to_next (house_of house) (spot_of from) depth }
{
    let aisle = from.aisle.checked_add(1)?;
    (from.depth == depth && aisle < house.aisles).then_some(Spot { aisle, depth })
}

// Kept: (d) `next` has one test more and adds where this takes away; both in one would be longer than the two.
fn former(from: Spot, depth: u8) -> Option<Spot>
    ensures { option_map spot_of result ≡ to_former (spot_of from) depth }
{
    let aisle = from.aisle.checked_sub(1)?;
    (from.depth == depth).then_some(Spot { aisle, depth })
}
