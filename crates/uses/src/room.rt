// The room that a slice of uses must have: a place for each edge of the largest house.
ghost use Rattle.house.specs.Reading.{HandsOn};
ghost use Rattle.uses.specs.Room.{MakesUses, room_rule};

use crate::house_uses::HouseUses;
use house::{House, Memory, Refusal};

// 64 aisles of 200 steps, and 63 passages at the front and at the back.
pub const ROOM: usize = 12926;

// Hands on the length of a slice that is long enough.
pub(crate) fn enough(len: usize) -> Result<usize, Refusal>
    ensures { HandsOn len (room_rule len) result }
{
    let ROOM.. = len else {
        return Err(Refusal::Short(Memory::Uses));
    };
    Ok(len)
}

impl<'a> HouseUses<'a> {
    // Uses in a slice that has room for those of any house.
    pub fn new(house: House, entries: &'a [u8]) -> Result<HouseUses<'a>, Refusal>
        ensures { MakesUses house entries.now result }
    {
        enough(entries.len())?;
        Ok(HouseUses { house, entries })
    }
}
