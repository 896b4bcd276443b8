// Whether uses touch every pick of a list.
ghost use Rattle.std.specs.Prelude.{◌≡◌, nat_lt};
ghost use Rattle.house.specs.Bounds.{picks_of};
ghost use Rattle.house.specs.Reading.{house_of, spot_of};
ghost use Rattle.walk.specs.Steps.{Within};
ghost use Rattle.uses.specs.Edges.{degree};
ghost use Rattle.uses.specs.Layout.{held_in};
ghost use Rattle.euler.specs.Touching.{Touches};

use crate::choice::choose;
use house::{PickList, Spot};
use uses::{Crossing, HouseUses};

pub(crate) fn touches_all(picks: PickList<'_>, uses: HouseUses<'_>) -> bool
    requires { uses.house ≡ picks.house }
    ensures { Touches (house_of uses.entry.house) (picks_of picks.entry.bytes.now) uses.entry.entries.now result }
{
    picks.iter().all(|pick| touched(uses, pick))
}

// A use meets a spot where one could go on from it.
fn touched(uses: HouseUses<'_>, at: Spot) -> bool
    requires { Within (house_of uses.house) (spot_of at) }
    ensures { result ≡ nat_lt 0 (degree (house_of uses.entry.house) (held_in (house_of uses.entry.house) uses.entry.entries.now) (spot_of at)) }
{
    let HouseUses { house, entries } = uses;
    choose(Crossing { house, entries, at }).is_some()
}
