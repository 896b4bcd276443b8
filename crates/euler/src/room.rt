// The room that memory must have for a walk over uses, and how many steps and how long it will be.
ghost use Rattle.house.specs.Reading.{house_of};
ghost use Rattle.euler.specs.Walking.{Measures};

use crate::answer::Walked;
use house::{House, Memory, Refusal};
use uses::{HouseUses, ROOM};

// Everything in the largest house is used twice.
pub const STEPS: usize = 2 * ROOM;

// How many steps a walk over the uses has, and how long it is, where the memory has room for it.
pub(crate) fn measure(house: House, uses: &[u8], room: usize) -> Result<Walked, Refusal>
    ensures { Measures (house_of house) uses.now room result }
{
    let STEPS.. = room else {
        return Err(Refusal::Short(Memory::Steps));
    };
    let uses = HouseUses::new(house, uses)?;
    let (in_aisles, in_passages) = (uses.in_aisles(), uses.in_passages());
    let steps = (in_aisles + in_passages) as usize;
    let ..=STEPS = steps else {
        return Err(Refusal::Short(Memory::Steps));
    };
    let length = in_aisles + house.apart as u32 * in_passages;
    Ok(Walked { steps, length })
}
