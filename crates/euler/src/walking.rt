// Uses made into the steps of a tour.
ghost use Rattle.std.specs.Prelude.{Ok, length};
ghost use Rattle.house.specs.Bounds.{picks_of};
ghost use Rattle.house.specs.Reading.{house_of};
ghost use Rattle.euler.specs.Walking.{Measures, WalksUses, WalksRound};

use crate::answer::{Unwalked, Walked};
use crate::copies::close;
use crate::room::measure;
use crate::touching::touches_all;
use house::{House, PickList};
use uses::HouseUses;

// Makes uses that are round into the steps of a tour: for every pick list that they are round for, its steps are those of a tour past the picks.
// The walk itself tells whether uses are round, so nothing is asked of them.
pub fn walk_uses(house: House, uses: &mut [u8], steps: &mut [u8]) -> Result<Walked, Unwalked>
    ensures { WalksUses (house_of house) uses.old uses.new steps.old steps.new result }
{
    let walked = measure(house, uses, steps.len())?;
    walk_over(house, uses, steps, walked)
}

// Makes uses into the steps of a tour past the picks, if they are round for the list.
pub fn walk_round(
    picks: PickList<'_>,
    uses: &mut [u8],
    steps: &mut [u8],
) -> Result<Walked, Unwalked>
    ensures { WalksRound (house_of picks.entry.house) (picks_of picks.entry.bytes.now) uses.old uses.new steps.old steps.new result }
{
    let walked = measure(picks.house, uses, steps.len())?;
    walk_past(picks, uses, steps, walked)
}

// Uses that are round for a list touch all its picks.
fn walk_past(
    picks: PickList<'_>,
    uses: &mut [u8],
    steps: &mut [u8],
    walked: Walked,
) -> Result<Walked, Unwalked>
    requires { Measures (house_of picks.house) uses.old (length steps.old) (Ok walked) }
    ensures { WalksRound (house_of picks.entry.house) (picks_of picks.entry.bytes.now) uses.old uses.new steps.old steps.new result }
{
    let house = picks.house;
    let entries = &*uses;
    if !touches_all(picks, HouseUses { house, entries }) {
        return Err(Unwalked::NotRound);
    }
    walk_over(house, uses, steps, walked)
}

fn walk_over(
    house: House,
    uses: &mut [u8],
    steps: &mut [u8],
    walked: Walked,
) -> Result<Walked, Unwalked>
    requires { Measures (house_of house) uses.old (length steps.old) (Ok walked) }
    ensures { WalksUses (house_of house) uses.old uses.new steps.old steps.new result }
{
    close(house, uses, steps, walked.steps)?;
    Ok(walked)
}
