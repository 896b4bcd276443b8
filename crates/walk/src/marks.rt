// The spots that a walk has passed: a flag for each depth of each aisle.
ghost use Rattle.std.specs.Prelude.{◌≡◌, ◌<◌, ◌≤◌, false, replicate};
ghost use Rattle.house.specs.Reading.{spot_of};
ghost use Rattle.walk.specs.Marking.{cell, marked, has};

use house::Spot;

#[derive(Drop)]
pub(crate) struct Marks {
    // 64 aisles, each with the depths from 0 to 200
    flags: [bool; 12864],
}

impl Marks {
    pub(crate) fn none() -> Marks
        ensures { result.flags ≡ replicate 12864 false }
    {
        Marks {
            flags: [false; 12864],
        }
    }

    pub(crate) fn mark(&mut self, spot: Spot)
        requires { (spot.aisle < 64) × (spot.depth ≤ 200) }
        ensures { self.new.flags ≡ marked self.old.flags (spot_of spot) }
    {
        self.flags[cell(spot)] = true;
    }

    pub(crate) fn has(&self, spot: Spot) -> bool
        ensures { result ≡ has self.now.flags (spot_of spot) }
    {
        self.flags.get(cell(spot)).copied().unwrap_or(false)
    }
}

// The place of a spot's flag.
pub fn cell(spot: Spot) -> usize
    ensures { result ≡ cell (spot_of spot) }
{
    201 * usize::from(spot.aisle) + usize::from(spot.depth)
}
