// The state of the walk, and its turns: steps on, and one step back.
ghost use Rattle.std.specs.Prelude.{◌≡◌, ◌+◌, ◌-◌, ◌<◌, ◌≤◌, length, slice_index, slice_set};
ghost use Rattle.house.specs.Reading.{spot_of};
ghost use Rattle.euler.specs.Passing.{begun, advanced_by, retreated, origin};

use house::Spot;
use walk::{DESK, Step};

// The steps below `top` are the stack, those of a walk from the desk to the spot `at`.
// The steps from `tail` on are finished, those of a walk from the spot `end` to the desk.
#[derive(Clone, Copy)]
pub(crate) struct Pass {
    pub top: usize,
    pub tail: usize,
    pub at: Spot,
    pub end: Spot,
}

impl Pass {
    // At the desk, with no step, before a tail of none.
    pub(crate) fn begin(n: usize) -> Pass
        ensures { result ≡ begun n }
    {
        Pass {
            top: 0,
            tail: n,
            at: DESK,
            end: DESK,
        }
    }

    // So many steps on, to a spot: they go onto the stack.
    pub(crate) fn advance(&mut self, long: usize, to: Spot)
        requires { self.old.top + long ≤ self.old.tail }
        ensures { self.new ≡ advanced_by self.old long to }
    {
        self.top += long;
        self.at = to;
    }

    // One step back: it goes from the stack to the tail, and the walk stands where it began.
    pub(crate) fn retreat(&mut self, steps: &mut [u8])
        requires some { 0 < self.old.top }
        requires apart { self.old.top ≤ self.old.tail }
        requires fits { self.old.tail ≤ length steps.old }
        requires inside { (self.old.at.aisle < 255) × (self.old.at.depth < 255) }
        ensures is { self.new ≡ retreated self.old self.new.at }
        ensures from { spot_of self.new.at ≡ origin (spot_of self.old.at) (slice_index steps.old (self.old.top - 1)) }
        ensures written { steps.new ≡ slice_set steps.old (self.old.tail - 1) (slice_index steps.old (self.old.top - 1)) }
    {
        self.top -= 1;
        self.tail -= 1;
        let byte = steps[self.top];
        steps[self.tail] = byte;
        self.at = before(self.at, byte);
        self.end = self.at;
    }
}

// Where a step that led to a spot began.
fn before(to: Spot, byte: u8) -> Spot
    requires { (to.aisle < 255) × (to.depth < 255) }
    ensures { spot_of result ≡ origin (spot_of to) byte }
{
    match Step::try_from(byte) {
        Ok(Step::Deeper) => Spot {
            depth: to.depth.saturating_sub(1),
            ..to
        },
        Ok(Step::Back) => Spot {
            depth: to.depth + 1,
            ..to
        },
        Ok(Step::NextFront | Step::NextBack) => Spot {
            aisle: to.aisle.saturating_sub(1),
            ..to
        },
        _ => Spot {
            aisle: to.aisle + 1,
            ..to
        },
    }
}
