// The first pick of a list that is not where a pick can be.
ghost use Rattle.std.specs.Prelude.{◌≡◌};
ghost use Rattle.house.specs.Bounds.{picks_of};
ghost use Rattle.house.specs.Reading.{spot_of};
ghost use Rattle.house.specs.Rules.{first_from, absent, outside};

use crate::entries::picks_in;
use crate::layout::Spot;

// Kept: (d) one line each; one for both would take the test with its ghost.
pub(crate) fn first_absent(aisles: u8, list: &[u8]) -> Option<usize>
    ensures { result ≡ first_from (absent aisles) 0 (picks_of list.now) }
{
    picks_in(list).position(|pick| is_absent(aisles, pick))
}

pub(crate) fn first_outside(deep: u8, list: &[u8]) -> Option<usize>
    ensures { result ≡ first_from (outside deep) 0 (picks_of list.now) }
{
    picks_in(list).position(|pick| is_outside(deep, pick))
}

fn is_absent(aisles: u8, pick: Spot) -> bool
    ensures { result ≡ absent aisles (spot_of pick) }
{
    pick.aisle >= aisles
}

fn is_outside(deep: u8, pick: Spot) -> bool
    ensures { result ≡ outside deep (spot_of pick) }
{
    pick.depth == 0 || pick.depth >= deep
}
