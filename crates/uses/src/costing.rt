// What uses cost: each step in an aisle counts 1, each passage the distance of two aisles.
ghost use Rattle.std.specs.Prelude.{◌≡◌, ◌+◌, ◌*◌, ◌≤◌, length, sum};
ghost use Rattle.house.specs.Reading.{house_of, HandsOn};
ghost use Rattle.uses.specs.Held.{aisles_cost, passages_in};
ghost use Rattle.uses.specs.Layout.{uses_in};
ghost use Rattle.uses.specs.Room.{room_rule};
ghost use Rattle.uses.specs.Uses.{cost};

use crate::house_uses::HouseUses;
use crate::layout::{places, steps};
use house::{House, Refusal};

// The cost of uses in a slice that has room for those of any house. It fits with every entry at its largest.
pub fn cost(house: House, uses: &[u8]) -> Result<u32, Refusal>
    ensures { HandsOn (cost (house_of house) (uses_in (house_of house) uses.now)) (room_rule (length uses.now)) result }
{
    Ok(HouseUses::new(house, uses)?.cost())
}

impl HouseUses<'_> {
    pub fn cost(self) -> u32
        ensures { result ≡ cost (house_of self.entry.house) (uses_in (house_of self.entry.house) self.entry.entries.now) }
    {
        self.in_aisles() + self.passages_cost()
    }

    // What the passages cost, which is all that the aisles leave.
    fn passages_cost(self) -> u32
        ensures left { aisles_cost (house_of self.entry.house) self.entry.entries.now + result ≡ cost (house_of self.entry.house) (uses_in (house_of self.entry.house) self.entry.entries.now) }
        ensures small { result ≤ 6426000 }
    {
        self.house.apart as u32 * self.in_passages()
    }

    // How often the steps of all aisles are used together.
    pub fn in_aisles(self) -> u32
        ensures is { result ≡ aisles_cost (house_of self.entry.house) self.entry.entries.now }
        ensures small { result ≤ 3264000 }
    {
        sum(&self.entries[..steps(self.house)])
    }

    // How often all passages are used together: they are all that the aisles leave.
    pub fn in_passages(self) -> u32
        ensures is { result ≡ passages_in (house_of self.entry.house) self.entry.entries.now }
        ensures small { result ≤ 32130 }
    {
        sum(&self.entries[steps(self.house)..places(self.house)])
    }
}

fn sum(entries: &[u8]) -> u32
    requires { length entries.now ≤ 12926 }
    ensures is { result ≡ sum entries.now }
    ensures small { result ≤ 255 * length entries.now }
{
    entries.iter().map(|n| u32::from(*n)).sum()
}
