// Runs: in an aisle the walk goes straight on, as far as uses are left over, in one turn.
ghost use Rattle.std.specs.Prelude.{◌≡◌, ℕ, ◌-◌, ◌<◌, ◌≤◌, length, slice_index, slice_set};
ghost use Rattle.house.specs.Reading.{house_of, spot_of};
ghost use Rattle.walk.specs.Codes.{byte_of};
ghost use Rattle.walk.specs.Steps.{Within};
ghost use Rattle.uses.specs.Layout.{places};
ghost use Rattle.euler.specs.Choosing.{Opens};
ghost use Rattle.euler.specs.Passing.{Ran};

use crate::choice::Onward;
use crate::pass::Pass;
use crate::stretch::ahead;
use house::House;
use uses::Crossing;

// At least one step on.
pub(crate) fn run(house: House, pass: &mut Pass, onward: Onward, left: &mut [u8], steps: &mut [u8])
    requires opens { Opens (house_of house) left.old (spot_of pass.old.at) (byte_of onward.step) onward.entry (spot_of onward.to) }
    requires inside { Within (house_of house) (spot_of pass.old.at) }
    requires places { places (house_of house) ≤ length left.old }
    requires room { (pass.old.top < pass.old.tail) × (pass.old.tail ≤ length steps.old) }
    ensures { Ran (house_of house) left.old left.new steps.old steps.new pass.old pass.new }
{
    let (top, at) = (pass.top, pass.at);
    let from = Crossing {
        house,
        entries: left,
        at,
    };
    let Some(straight) = ahead(from, onward, pass.tail - top) else {
        take(left, onward.entry);
        steps[top] = onward.step.into();
        pass.advance(1, onward.to);
        return;
    };
    wear(&mut left[straight.start..straight.start + straight.long]);
    steps[top..top + straight.long].fill(onward.step.into());
    pass.advance(straight.long, straight.to);
}

// Writes one use down.
fn take(left: &mut [u8], entry: usize)
    requires { (entry < length left.old) × (0 < slice_index left.old entry) }
    ensures { left.new ≡ slice_set left.old entry (slice_index left.old entry - 1) }
{
    left[entry] -= 1;
}

// Writes one use down at each place.
fn wear(left: &mut [u8])
    requires { (k : ℕ) → k < length left.old → 0 < slice_index left.old k }
    ensures { (k : ℕ) → k < length left.old → slice_index left.new k ≡ slice_index left.old k - 1 }
{
    for uses in left.iter_mut() {
        *uses -= 1;
    }
}
