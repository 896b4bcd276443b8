// The readers of the two sorts of files: a pick list to plan, and a way that is claimed to be a tour.
ghost use Rattle.std.specs.Prelude.{◌≤◌, length};
ghost use Rattle.house.specs.Bounds.{Whole};
ghost use Rattle.house.specs.Reading.{ReadsHouse, MakesPicks, ReadsPicks, ReadsClaim, house_of, house_rule, picks_rule, list_rule, claim_rule, refusal_of, claim_refusal_of, claimed_list};

use crate::checks::{
    aisle_count, aisle_depth, aisle_distance, counted_list, in_aisles, on_shelves, whole_list,
};
use crate::layout::House;
use crate::parts::{byte_at, claim_of, list_of};
use crate::picks::{ClaimedWay, PickList};
use crate::refusal::Refusal;

// Holds a file to plan to every rule, and hands on its house with its list.
pub fn read(file: &[u8]) -> Result<PickList<'_>, Refusal>
    ensures { ReadsPicks file.now (refusal_of file.now) result }
{
    let house = read_house(file)?;
    listed(house, list_of(file))
}

// Holds the house and the pick list of a file that claims a way to every rule, and hands on the list and the way.
pub fn read_claim(file: &[u8]) -> Result<ClaimedWay<'_>, Refusal>
    ensures { ReadsClaim file.now (claim_refusal_of file.now) result }
{
    let house = read_house(file)?;
    let picks = claimed(house, file)?;
    Ok(ClaimedWay {
        picks,
        way: claim_of(file).way,
    })
}

fn read_house(file: &[u8]) -> Result<House, Refusal>
    ensures { ReadsHouse file.now (house_rule file.now) result }
{
    Ok(House {
        aisles: aisle_count(byte_at(file, 0))?,
        deep: aisle_depth(byte_at(file, 1))?,
        apart: aisle_distance(byte_at(file, 2))?,
    })
}

fn listed(house: House, list: &[u8]) -> Result<PickList<'_>, Refusal>
    ensures { MakesPicks (house_of house) list.now (list_rule (house_of house) list.now) result }
{
    placed(house, whole_list(list)?)
}

fn claimed(house: House, file: &[u8]) -> Result<PickList<'_>, Refusal>
    ensures { MakesPicks (house_of house) (claimed_list file.now) (claim_rule (house_of house) file.now) result }
{
    placed(house, counted_list(file)?)
}

// All picks are held to their aisles before any is held to its depth.
fn placed(house: House, list: &[u8]) -> Result<PickList<'_>, Refusal>
    requires whole { Whole list.now }
    requires few { length list.now ≤ 1024 }
    ensures { MakesPicks (house_of house) list.now (picks_rule (house_of house) list.now) result }
{
    let list = in_aisles(house.aisles, list)?;
    let bytes = on_shelves(house.deep, list)?;
    Ok(PickList { house, bytes })
}
