// Whether uses are round: an even number meets at every spot, and every used spot and every pick is linked with the desk.
ghost use Rattle.std.specs.Prelude.{◌≡◌, ◌<◌, Decides};
ghost use Rattle.house.specs.Bounds.{picks_of};
ghost use Rattle.house.specs.Reading.{house_of, spot_of};
ghost use Rattle.walk.specs.Steps.{Within};
ghost use Rattle.uses.specs.Flood.{TellsLinked};
ghost use Rattle.uses.specs.Layout.{uses_in};
ghost use Rattle.uses.specs.Rounding.{fine, fine_aisle, fine_house, PicksSeen, TellsRound};
ghost use Rattle.uses.specs.Uses.{Round};

use crate::flood::Flood;
use crate::flooding::flood;
use crate::house_uses::HouseUses;
use house::{PickList, Refusal, Spot};

// An even number of uses meets at the spot, and if one does, the spot is seen.
fn is_fine(uses: HouseUses<'_>, flood: &Flood, at: Spot) -> bool
    requires { Within (house_of uses.house) (spot_of at) }
    ensures { result ≡ fine (house_of uses.entry.house) uses.entry.entries.now flood.now.seen (spot_of at) }
{
    let n = uses.at(at).meeting();
    n % 2 == 0 && (n == 0 || flood.has(at))
}

// Kept: (c) a range up to `deep + 1`, since over `0..=deep` what `all` tells stays open: no lemma of the library gives its items.
fn is_fine_aisle(uses: HouseUses<'_>, flood: &Flood, aisle: u8) -> bool
    requires { aisle < uses.house.aisles }
    ensures { result ≡ fine_aisle (house_of uses.entry.house) uses.entry.entries.now flood.now.seen aisle }
{
    (0..uses.house.deep + 1).all(|depth| is_fine(uses, flood, Spot { aisle, depth }))
}

fn is_fine_house(uses: HouseUses<'_>, flood: &Flood) -> bool
    ensures { result ≡ fine_house (house_of uses.entry.house) uses.entry.entries.now flood.now.seen }
{
    (0..uses.house.aisles).all(|aisle| is_fine_aisle(uses, flood, aisle))
}

fn are_seen(picks: PickList<'_>, flood: &Flood) -> bool
    ensures { Decides result (PicksSeen (picks_of picks.entry.bytes.now) flood.now.seen) }
{
    picks.iter().all(|pick| flood.has(pick))
}

// What is used and the picks are held to the spots that are linked with the desk.
fn are_fine(picks: PickList<'_>, uses: HouseUses<'_>, flood: &Flood) -> bool
    requires same { uses.house ≡ picks.house }
    requires linked { TellsLinked (house_of uses.house) uses.entries.now flood.now.seen }
    ensures { Decides result (Round (house_of uses.entry.house) (picks_of picks.entry.bytes.now) (uses_in (house_of uses.entry.house) uses.entry.entries.now)) }
{
    is_fine_house(uses, flood) && are_seen(picks, flood)
}

fn are_round(picks: PickList<'_>, uses: HouseUses<'_>) -> bool
    requires { uses.house ≡ picks.house }
    ensures { Decides result (Round (house_of uses.entry.house) (picks_of picks.entry.bytes.now) (uses_in (house_of uses.entry.house) uses.entry.entries.now)) }
{
    let linked = flood(uses);
    are_fine(picks, uses, &linked)
}

// Whether the uses in a slice, which has room for those of any house, are round for the list. It takes time linear in the house.
// Its frame is large, so that it is kept out of its callers.
#[inline(never)]
pub fn is_round(picks: PickList<'_>, uses: &[u8]) -> Result<bool, Refusal>
    ensures { TellsRound (house_of picks.entry.house) (picks_of picks.entry.bytes.now) uses.now result }
{
    Ok(are_round(picks, HouseUses::new(picks.house, uses)?))
}
