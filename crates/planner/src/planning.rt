// The planner: bytes and lent memory in, a shortest tour out.
ghost use Rattle.std.specs.Prelude.{◌≡◌, ◌≤◌, length, None};
ghost use Rattle.house.specs.Bounds.{picks_of};
ghost use Rattle.house.specs.Reading.{house_of};
ghost use Rattle.aisle.specs.Order.{sorted};
ghost use Rattle.aisle.specs.Sorting.{Holds};
ghost use Rattle.planner.specs.Planning.{BestLaid, Routed, SameSlices, Written, Plans, held, memory_rule};

use crate::lay::lay;
use crate::memory::Lent;
use aisle::sort_picks;
use euler::{Walked, walk_uses};
use house::{PickList, Refusal, Spot, read};
use partial::best_numbers;

// The uses of a shortest tour past the picks of a list.
// Kept: (c) over a `&mut Lent` the borrow of one slice while another is read is not covered, and through `&mut *self.picks` only its length is known afterwards.
fn lay_best(
    list: PickList<'_>,
    picks: &mut [Spot],
    lengths: &mut [u32],
    came: &mut [u8],
    uses: &mut [u8],
)
    requires sorting { 512 ≤ length picks.old }
    requires tables { (448 ≤ length lengths.old) × (448 ≤ length came.old) }
    requires laying { 12926 ≤ length uses.old }
    ensures sorted { Holds (length (picks_of list.entry.bytes.now)) (sorted (picks_of list.entry.bytes.now)) picks.old picks.new }
    ensures laid { BestLaid (house_of list.entry.house) (sorted (picks_of list.entry.bytes.now)) lengths.old came.old lengths.new came.new uses.old uses.new }
{
    let n = sort_picks(list, picks).unwrap();
    let numbers = best_numbers(list.house, &picks[..n], lengths, came).unwrap();
    lay(list.house, &picks[..n], numbers, uses);
}

impl Lent<'_> {
    // A shortest tour past the picks of a list.
    fn route(&mut self, list: PickList<'_>) -> Walked
        requires { memory_rule (held self.old) ≡ None }
        ensures routed { Routed (house_of list.entry.house) (picks_of list.entry.bytes.now) (held self.old) (held self.new) result }
        ensures written { result.steps ≤ length self.new.steps.now }
        ensures same { SameSlices self.old self.new }
    {
        lay_best(list, self.picks, self.lengths, self.came, self.uses);
        walk_uses(list.house, self.uses, self.steps).unwrap()
    }
}

// Plans a file: holds the memory to its sizes and the file to its rules, and writes the steps of a shortest tour past its picks.
pub fn plan(file: &[u8], memory: &mut Lent<'_>) -> Result<Walked, Refusal>
    ensures plans { Plans file.now (held memory.old) (held memory.new) result }
    ensures written { Written memory.new.steps.now result }
    ensures same { SameSlices memory.old memory.new }
{
    memory.enough()?;
    let list = read(file)?;
    Ok(memory.route(list))
}
