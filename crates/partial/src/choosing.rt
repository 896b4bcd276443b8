// The choices of the best plan.
ghost use Rattle.house.specs.Reading.{house_of};
ghost use Rattle.aisle.specs.Values.{spots_of};
ghost use Rattle.partial.specs.Choice.{numbered};
ghost use Rattle.partial.specs.Choosing.{Chooses, Chosen};
ghost use Rattle.partial.specs.Table.{tables};

use crate::choice::Choice;
use crate::ending::ending;
use crate::table::{CELLS, Tables};
use crate::trace::trace;
use house::{House, Memory, Refusal, Spot};

fn choose(
    house: House,
    picks: &[Spot],
    lengths: &mut [u32; CELLS],
    came: &mut [u8; CELLS],
) -> [u8; 64]
    ensures { Chosen (house_of house) (spots_of picks.now) (tables lengths.old came.old) (tables lengths.new came.new) result }
{
    let mut tables = Tables { lengths, came };
    tables.fill(house, picks, 0, 0);
    let Tables { lengths, came } = tables;
    let end = ending(lengths, (house.aisles - 1) as usize);
    trace(came, house.aisles, end)
}

// Fills the tables for picks in order, and reads back the number of the choice at each aisle of a shortest tour.
// Kept: (a) 64 bytes are copied in line, where for 64 choices an archive for C would ask for `memcpy` from outside.
// Kept: (a) the request prescribes lent slices of u32 and u8 that are written together.
pub fn best_numbers(
    house: House,
    picks: &[Spot],
    lengths: &mut [u32],
    came: &mut [u8],
) -> Result<[u8; 64], Refusal>
    ensures { Chooses (house_of house) (spots_of picks.now) (tables lengths.old came.old) (tables lengths.new came.new) result }
{
    let Some(lengths) = lengths.first_chunk_mut() else {
        return Err(Refusal::Short(Memory::Tables));
    };
    let Some(came) = came.first_chunk_mut() else {
        return Err(Refusal::Short(Memory::Tables));
    };
    Ok(choose(house, picks, lengths, came))
}

// The same, with the choices themselves in place of their numbers.
// Kept: (a) the request prescribes lent slices of u32 and u8 that are written together.
pub fn best_choices(
    house: House,
    picks: &[Spot],
    lengths: &mut [u32],
    came: &mut [u8],
) -> Result<[Choice; 64], Refusal>
    ensures { Chooses (house_of house) (spots_of picks.now) (tables lengths.old came.old) (tables lengths.new came.new) (numbered result) }
{
    let numbers = best_numbers(house, picks, lengths, came)?;
    Ok(numbers.map(Choice::from))
}
