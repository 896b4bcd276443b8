// A walk over lent uses, into a copy of the lent steps; where the walk is not closed, all lent memory is left as it was.
ghost use Rattle.std.specs.Prelude.{◌≡◌, ◌≤◌, length};
ghost use Rattle.house.specs.Reading.{house_of};
ghost use Rattle.uses.specs.Layout.{places};
ghost use Rattle.euler.specs.Passing.{Settles};
ghost use Rattle.euler.specs.Walking.{count_of};

use crate::answer::Unwalked;
use crate::room::STEPS;
use crate::tracing::trace;
use house::House;
use uses::ROOM;
use uses::layout::places;

const FEW: usize = 1024;

// Small houses and short walks are spared the copies of the largest.
pub(crate) fn close(
    house: House,
    uses: &mut [u8],
    steps: &mut [u8],
    n: usize,
) -> Result<(), Unwalked>
    requires room { 12926 ≤ length uses.old }
    requires total { n ≡ count_of (house_of house) uses.old }
    requires fits { n ≤ 25852 }
    requires long { 25852 ≤ length steps.old }
    ensures { Settles (house_of house) uses.old uses.new steps.old steps.new n result }
{
    let places = places(house);
    if n <= FEW && places <= FEW {
        settle(house, uses, steps, n, &mut [0; FEW], &mut [0; FEW])
    } else if n <= ROOM {
        settle(house, uses, steps, n, &mut [0; ROOM], &mut [0; ROOM])
    } else {
        settle(house, uses, steps, n, &mut [0; ROOM], &mut [0; STEPS])
    }
}

// Kept: (a) uses in one lent slice and steps in another are prescribed; each is borrowed alone.
// Keeps a copy of the uses, so that those which are not round are there again afterwards.
fn settle(
    house: House,
    uses: &mut [u8],
    steps: &mut [u8],
    n: usize,
    left: &mut [u8],
    way: &mut [u8],
) -> Result<(), Unwalked>
    requires room { places (house_of house) ≤ length uses.old }
    requires total { n ≡ count_of (house_of house) uses.old }
    requires fits { n ≤ length steps.old }
    requires copies { (places (house_of house) ≤ length left.old) × (n ≤ length way.old) }
    ensures { Settles (house_of house) uses.old uses.new steps.old steps.new n result }
{
    let places = places(house);
    copy(&uses[..places], &mut left[..places]);
    if !trace(house, uses, way, n) {
        copy(&left[..places], &mut uses[..places]);
        return Err(Unwalked::NotRound);
    }
    copy(&way[..n], &mut steps[..n]);
    Ok(())
}

// Kept: (a) byte by byte: by `copy_from_slice` an archive for C would ask for `memmove` from outside.
fn copy(from: &[u8], to: &mut [u8])
    requires { length to.old ≡ length from.now }
    ensures { to.new ≡ from.now }
{
    for i in 0..from.len() {
        to[i] = from[i];
    }
}
