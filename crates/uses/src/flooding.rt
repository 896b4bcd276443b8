// Which spots are linked with the desk, by a flood.
ghost use Rattle.house.specs.Reading.{house_of};
ghost use Rattle.uses.specs.Flood.{TellsLinked};

use crate::flood::Flood;
use crate::house_uses::HouseUses;
use walk::DESK;

// Marks all spots that are linked with the desk.
pub(crate) fn flood(uses: HouseUses<'_>) -> Flood
    ensures { TellsLinked (house_of uses.entry.house) uses.entry.entries.now result.seen }
{
    let mut flood = Flood::new();
    flood.offer(1, DESK);
    while let Some(at) = flood.pop() {
        flood.leave(uses.at(at));
    }
    flood
}
