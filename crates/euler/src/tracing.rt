// One pass over uses makes a walk of them (Hierholzer's algorithm).
ghost use Rattle.std.specs.Prelude.{◌≡◌, ℕ, ◌<◌, ◌≤◌, true, length, slice_index};
ghost use Rattle.house.specs.Reading.{house_of};
ghost use Rattle.uses.specs.Held.{held};
ghost use Rattle.uses.specs.Layout.{places};
ghost use Rattle.euler.specs.Passing.{Decides};

use crate::choice::choose;
use crate::pass::Pass;
use crate::run::run;
use house::House;
use uses::Crossing;

// Makes the first n steps those of a walk from the desk back to it with exactly these uses, n of them, if there is one.
// The uses are written down on the way. Where nothing is left over at a spot, the last step of the stack moves to the tail,
// so each step is written at most twice. Once stack and tail meet, nothing is left over.
// Kept: (d) whether a tour has these uses is what the pass finds; it is an error only once `settle` has put them back.
pub(crate) fn trace(house: House, left: &mut [u8], steps: &mut [u8], n: usize) -> bool
    requires places { places (house_of house) ≤ length left.old }
    requires total { n ≡ held left.old 0 (places (house_of house)) }
    requires fits { n ≤ length steps.old }
    ensures decides { Decides (house_of house) left.old steps.new n result }
    ensures used_up { result ≡ true → (k : ℕ) → k < places (house_of house) → slice_index left.new k ≡ 0 }
    ensures beyond { (k : ℕ) → places (house_of house) ≤ k → slice_index left.new k ≡ slice_index left.old k }
{
    let mut pass = Pass::begin(n);
    while pass.top < pass.tail {
        let at = pass.at;
        if let Some(onward) = choose(Crossing {
            house,
            entries: left,
            at,
        }) {
            run(house, &mut pass, onward, left, steps);
        } else if pass.top > 0 && pass.at == pass.end {
            pass.retreat(steps);
        } else {
            return false;
        }
    }
    pass.at == pass.end
}
