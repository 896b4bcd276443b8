// How often a way uses each stretch of the house, counted into a lent slice.
ghost use Rattle.std.specs.Prelude.{◌≡◌, ◌<◌, length, replicate, None};
ghost use Rattle.house.specs.Reading.{house_of, spot_of, PassesOn};
ghost use Rattle.walk.specs.Checking.{exit_rule};
ghost use Rattle.uses.specs.Counting.{count_rule, Adds, Tallies, Counts};
ghost use Rattle.uses.specs.Looking.{Looks, TakesStep};

use crate::layout::places;
use crate::looking::look;
use crate::miscount::Miscount;
use crate::room::{ROOM, enough};
use house::{House, Refusal, Spot};
use walk::{DESK, Step, only_steps};

// What a byte of a way leads along from a spot. A byte that is no step leads out too.
fn look_by(house: House, from: Spot, byte: u8) -> Option<(usize, Spot)>
    ensures { Looks (house_of house) (spot_of from) byte result }
{
    look(house, from, Step::try_from(byte).ok()?)
}

// The i-th step of a way, taken from a spot.
// Kept: (b) by `ok_or` place and spot are handed on as bytes, taken apart and put together again, and a count takes a tenth to a third longer.
fn take_step(house: House, from: Spot, i: usize, byte: u8) -> Result<(usize, Spot), Refusal>
    ensures { TakesStep (house_of house) (spot_of from) byte i result }
{
    let Some((entry, to)) = look_by(house, from, byte) else {
        return Err(Refusal::LeadsOut(i));
    };
    Ok((entry, to))
}

// Holds each step of a way to the house.
fn stays_in(house: House, way: &[u8]) -> Result<&[u8], Refusal>
    ensures { PassesOn way.now (exit_rule (house_of house) way.now) result }
{
    let mut at = DESK;
    for (i, byte) in way.iter().enumerate() {
        (_, at) = take_step(house, at, i, *byte)?;
    }
    Ok(way)
}

// One use more, where the entry can hold it.
fn add(counts: &mut [u8], entry: usize) -> Option<()>
    requires { entry < length counts.old }
    ensures { Adds counts.old entry counts.new result }
{
    counts[entry] = counts[entry].checked_add(1)?;
    Some(())
}

// Counts the uses of a way into entries that are all 0.
// Kept: (d) `stays_in` walks as this does, but a walk that takes a closure for what each step does would be longer than these two loops.
fn tally(house: House, way: &[u8], counts: &mut [u8]) -> Result<(), Miscount>
    requires { counts.old ≡ replicate 12926 0 }
    ensures { Tallies (house_of house) way.now counts.new result }
{
    let mut at = DESK;
    for (i, byte) in way.iter().enumerate() {
        let (entry, next) = take_step(house, at, i, *byte)?;
        add(counts, entry).ok_or(Miscount::Overfull(i))?;
        at = next;
    }
    Ok(())
}

// The room comes before all else; then all steps are held to the six before any is held to the house.
fn countable(house: House, way: &[u8], len: usize) -> Result<&[u8], Refusal>
    ensures { PassesOn way.now (count_rule (house_of house) way.now len) result }
{
    enough(len)?;
    let way = only_steps(way)?;
    stays_in(house, way)
}

// How often the way, from the desk, uses each stretch of the house. A refusal leaves the slice as it was.
pub fn count(house: House, way: &[u8], uses: &mut [u8]) -> Result<(), Miscount>
    ensures { Counts (house_of house) way.now uses.old uses.new result }
{
    let way = countable(house, way, uses.len())?;
    count_into(house, way, uses)
}

// Counts a way that breaks no rule. It is counted apart first, so that an entry that is full changes nothing.
fn count_into(house: House, way: &[u8], uses: &mut [u8]) -> Result<(), Miscount>
    requires { count_rule (house_of house) way.now (length uses.old) ≡ None }
    ensures { Counts (house_of house) way.now uses.old uses.new result }
{
    let mut counts = [0; ROOM];
    tally(house, way, &mut counts)?;
    let n = places(house);
    uses[..n].copy_from_slice(&counts[..n]);
    Ok(())
}
