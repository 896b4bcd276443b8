// A spot of a house, with the uses of the house.
ghost use Rattle.std.specs.Prelude.{◌≤◌, length};
ghost use Rattle.house.specs.Reading.{house_of, spot_of};
ghost use Rattle.walk.specs.Steps.{Within};
ghost use Rattle.uses.specs.Layout.{places};

use house::{House, Spot};

#[derive(Clone, Copy, Debug, PartialEq, Eq)]
pub struct Crossing<'a> {
    pub house: House,
    pub entries: &'a [u8],
    pub at: Spot,
    pub ghost room: { places (house_of house) ≤ length entries.now },
    pub ghost inside: { Within (house_of house) (spot_of at) },
}
