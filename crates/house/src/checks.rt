// The checks that a house and a pick list are held to: each hands on what it was given, or returns its refusal.
ghost use Rattle.house.specs.Rules.{aisles_rule, deep_rule, apart_rule, size_rule, aisle_rule, shelf_rule};
ghost use Rattle.house.specs.Reading.{HandsOn, PassesOn, count_rule, claimed_list};

use crate::first::{first_absent, first_outside};
use crate::parts::count_of;
use crate::refusal::Refusal;

// Kept: (a) each bound of the house is a check of its own with a pattern and a `let .. else`, a form that the request prescribes.
pub(crate) fn aisle_count(m: u8) -> Result<u8, Refusal>
    ensures { HandsOn m (aisles_rule m) result }
{
    let 1..=64 = m else {
        return Err(Refusal::Aisles);
    };
    Ok(m)
}

pub(crate) fn aisle_depth(steps: u8) -> Result<u8, Refusal>
    ensures { HandsOn steps (deep_rule steps) result }
{
    let 2..=200 = steps else {
        return Err(Refusal::Deep);
    };
    Ok(steps)
}

pub(crate) fn aisle_distance(steps: u8) -> Result<u8, Refusal>
    ensures { HandsOn steps (apart_rule steps) result }
{
    let 1..=200 = steps else {
        return Err(Refusal::Apart);
    };
    Ok(steps)
}

pub(crate) fn whole_list(list: &[u8]) -> Result<&[u8], Refusal>
    ensures { PassesOn list.now (size_rule list.now) result }
{
    let n = list.len();
    let (0, ..=1024) = (n % 2, n) else {
        return Err(Refusal::List(n));
    };
    Ok(list)
}

// A count that is cut off is told as a list of no bytes, and one that asks for too much by the bytes that it could have.
pub(crate) fn counted_list(file: &[u8]) -> Result<&[u8], Refusal>
    ensures { PassesOn (claimed_list file.now) (count_rule file.now) result }
{
    let Some(rest) = file.get(5..) else {
        return Err(Refusal::List(0));
    };
    let asked = 2 * count_of(file);
    let (..=1024, Some(list)) = (asked, rest.get(..asked)) else {
        return Err(Refusal::List(asked.min(rest.len())));
    };
    Ok(list)
}

pub(crate) fn in_aisles(aisles: u8, list: &[u8]) -> Result<&[u8], Refusal>
    ensures { PassesOn list.now (aisle_rule aisles list.now) result }
{
    // Kept: (a) the request prescribes that a check hands on its value or returns its refusal by `let .. else`.
    let Some(pick) = first_absent(aisles, list) else {
        return Ok(list);
    };
    Err(Refusal::NoAisle(pick))
}

pub(crate) fn on_shelves(deep: u8, list: &[u8]) -> Result<&[u8], Refusal>
    ensures { PassesOn list.now (shelf_rule deep list.now) result }
{
    // Kept: (a) the request prescribes that a check hands on its value or returns its refusal by `let .. else`.
    let Some(pick) = first_outside(deep, list) else {
        return Ok(list);
    };
    Err(Refusal::NoShelf(pick))
}
