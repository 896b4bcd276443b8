// How the walk goes on from a spot: onto any use that is left over there.
ghost use Rattle.std.specs.Prelude.{[], ◌∷◌, map};
ghost use Rattle.house.specs.Reading.{house_of, spot_of};
ghost use Rattle.walk.specs.Codes.{byte_of};
ghost use Rattle.euler.specs.Choosing.{Tries, Chooses};

use house::Spot;
use uses::{Crossing, look};
use walk::Step;

// A step onto a use that is left over, the place of that use, and the spot to which it leads.
#[derive(Clone, Copy)]
pub(crate) struct Onward {
    pub step: Step,
    pub entry: usize,
    pub to: Spot,
}

// The steps that can be there at the front, inside an aisle, and at the back, in the order in which they are tried:
// the aisle before the passages, deeper before back, and the next aisle before the former one.
const AT_FRONT: [Step; 3] = [Step::Deeper, Step::NextFront, Step::BeforeFront];

const INSIDE: [Step; 2] = [Step::Deeper, Step::Back];

const AT_BACK: [Step; 3] = [Step::Back, Step::NextBack, Step::BeforeBack];

// Each caller has a copy of its own: called from two places and not inlined, it makes a walk take twice as long.
// Kept: (d) one call with the list that was chosen would be no shorter, and its one copy would know none of the three.
#[inline(always)]
pub(crate) fn choose(from: Crossing<'_>) -> Option<Onward>
    ensures { Chooses (house_of from.entry.house) from.entry.entries.now (spot_of from.entry.at) result }
{
    if from.at.depth == 0 {
        one_of(from, &AT_FRONT)
    } else if from.at.depth == from.house.deep {
        one_of(from, &AT_BACK)
    } else {
        one_of(from, &INSIDE)
    }
}

// A copy for each list of steps knows them, and asks each step only what it needs.
// Kept: (b) `find_map` takes twice the instructions of this loop: 121 and 104 million against 58 million.
#[inline(always)]
fn one_of(from: Crossing<'_>, steps: &[Step]) -> Option<Onward>
    ensures { Tries (house_of from.entry.house) from.entry.entries.now (spot_of from.entry.at) (map byte_of steps.now) result }
{
    for step in steps {
        if let Some(onward) = onto(from, *step) {
            return Some(onward);
        }
    }
    None
}

// The way on by this step, if it goes onto a use that is left over.
#[inline(always)]
fn onto(from: Crossing<'_>, step: Step) -> Option<Onward>
    ensures { Tries (house_of from.entry.house) from.entry.entries.now (spot_of from.entry.at) (byte_of step ∷ []) result }
{
    let (entry, to) = look(from.house, from.at, step)?;
    (from.entries[entry] > 0).then_some(Onward { step, entry, to })
}
