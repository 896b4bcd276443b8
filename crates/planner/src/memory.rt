// The memory that is lent for planning, with room for the largest house and the longest list.
ghost use Rattle.std.specs.Prelude.{◌≡◌, Some, None, MatchResult};
ghost use Rattle.planner.specs.Planning.{held, memory_rule};

use aisle::PICKS;
use euler::STEPS;
use house::{Memory, Refusal, Spot};
use partial::CELLS;
use uses::ROOM;

// Kept: (a) the request prescribes lent slices of u32 and u8 that are written together.
#[derive(Drop)]
pub struct Lent<'a> {
    // the picks in order
    pub picks: &'a mut [Spot],
    // the table of partial tours: their lengths, and where each came from
    pub lengths: &'a mut [u32],
    pub came: &'a mut [u8],
    // the steps of the tour
    pub steps: &'a mut [u8],
    // the uses of the plan
    pub uses: &'a mut [u8],
}

impl Lent<'_> {
    // Holds the memory to its sizes.
    pub(crate) fn enough(&self) -> Result<(), Refusal>
        ensures { MatchResult result (λ _. memory_rule (held self.now) ≡ None) (λ e. memory_rule (held self.now) ≡ Some e) }
    {
        let PICKS.. = self.picks.len() else {
            return Err(Refusal::Short(Memory::Picks));
        };
        let (CELLS.., CELLS..) = (self.lengths.len(), self.came.len()) else {
            return Err(Refusal::Short(Memory::Tables));
        };
        let STEPS.. = self.steps.len() else {
            return Err(Refusal::Short(Memory::Steps));
        };
        let ROOM.. = self.uses.len() else {
            return Err(Refusal::Short(Memory::Uses));
        };
        Ok(())
    }
}
