// Uses of a house in a slice of bytes: an entry for each of its edges, and what stands beyond them.
ghost use Rattle.std.specs.Prelude.{◌≡◌, ◌≤◌, length};
ghost use Rattle.house.specs.Reading.{house_of, spot_of};
ghost use Rattle.walk.specs.Steps.{Within};
ghost use Rattle.uses.specs.Layout.{places};

use crate::crossing::Crossing;
use house::{House, Spot};

#[derive(Clone, Copy, Debug, PartialEq, Eq)]
pub struct HouseUses<'a> {
    pub house: House,
    pub entries: &'a [u8],
    pub ghost room: { places (house_of house) ≤ length entries.now },
}

impl<'a> HouseUses<'a> {
    // A spot of the house, with these uses.
    pub(crate) fn at(self, at: Spot) -> Crossing<'a>
        requires { Within (house_of self.house) (spot_of at) }
        ensures house { result.house ≡ self.entry.house }
        ensures entries { result.entries.now ≡ self.entry.entries.now }
        ensures at { result.at ≡ at }
    {
        let HouseUses { house, entries } = self;
        Crossing { house, entries, at }
    }
}
