// Stretches: how far the walk goes straight on in one turn.
ghost use Rattle.std.specs.Prelude.{◌≡◌, ℕ, ◌+◌, ◌-◌, ◌*◌, ◌<◌, ◌≤◌, true, length, IfSome, slice_index};
ghost use Rattle.house.specs.Reading.{house_of, spot_of};
ghost use Rattle.walk.specs.Codes.{byte_of};
ghost use Rattle.euler.specs.Choosing.{Opens};
ghost use Rattle.euler.specs.Passing.{Straight};

use crate::choice::Onward;
use house::Spot;
use uses::Crossing;
use uses::layout::lane;
use walk::Step;

// So many places are looked at together, without a test for each.
// Kept: (b) in blocks, since `memchr` takes 28 % longer over aisles of 30 steps, and `position` alone 7 times as long over 200 places.
const BLOCK: usize = 8;

// Steps with one byte: the first place of their uses, how many they are, and the spot to which they lead.
#[derive(Clone, Copy)]
pub(crate) struct Stretch {
    pub start: usize,
    pub long: usize,
    pub to: Spot,
}

// At least one step on in an aisle, and at most so many as there is room for; none along a passage, which is gone by itself.
pub(crate) fn ahead(from: Crossing<'_>, onward: Onward, room: usize) -> Option<Stretch>
    requires opens { Opens (house_of from.house) from.entries.now (spot_of from.at) (byte_of onward.step) onward.entry (spot_of onward.to) }
    requires room { 0 < room }
    ensures { IfSome result (λ run. Straight (house_of from.entry.house) from.entry.entries.now from.entry.at room (byte_of onward.step) run) }
{
    match onward.step {
        Step::Deeper => Some(deeper(from, room)),
        Step::Back => Some(shallower(from, room)),
        _ => None,
    }
}

// On towards the back way.
// Kept: (d) one of both directions would take a flag at each slice and sum.
fn deeper(from: Crossing<'_>, room: usize) -> Stretch
    requires inside { from.at.depth < from.house.deep }
    requires used { 0 < slice_index from.entries.now (from.at.aisle * from.house.deep + from.at.depth) }
    requires room { 0 < room }
    ensures { Straight (house_of from.entry.house) from.entry.entries.now from.entry.at room 0 result }
{
    let Crossing { house, entries, at } = from;
    let start = lane(house, at.aisle, at.depth);
    let most = ((house.deep - at.depth) as usize).min(room);
    let long = used_first(&entries[start..start + most]);
    let depth = at.depth + long as u8;
    Stretch {
        start,
        long,
        to: Spot {
            aisle: at.aisle,
            depth,
        },
    }
}

// On towards the front way.
fn shallower(from: Crossing<'_>, room: usize) -> Stretch
    requires inside { 0 < from.at.depth }
    requires used { 0 < slice_index from.entries.now (from.at.aisle * from.house.deep + from.at.depth - 1) }
    requires room { 0 < room }
    ensures { Straight (house_of from.entry.house) from.entry.entries.now from.entry.at room 1 result }
{
    let Crossing { house, entries, at } = from;
    let end = lane(house, at.aisle, at.depth);
    let most = (at.depth as usize).min(room);
    let long = used_last(&entries[end - most..end]);
    let depth = at.depth - long as u8;
    Stretch {
        start: end - long,
        long,
        to: Spot {
            aisle: at.aisle,
            depth,
        },
    }
}

// At how many places from the first on something is left over.
// Kept: (d) one of both directions would take a flag at each slice and sum.
fn used_first(left: &[u8]) -> usize
    ensures within { result ≤ length left.now }
    ensures used { (k : ℕ) → k < result → 0 < slice_index left.now k }
    ensures stops { result < length left.now → slice_index left.now result ≡ 0 }
{
    let blocks = blocks_first(left);
    blocks + each_first(&left[blocks..])
}

// The same place by place.
fn each_first(left: &[u8]) -> usize
    ensures within { result ≤ length left.now }
    ensures used { (k : ℕ) → k < result → 0 < slice_index left.now k }
    ensures stops { result < length left.now → slice_index left.now result ≡ 0 }
{
    left.iter()
        .position(|&uses| uses == 0)
        .unwrap_or(left.len())
}

// Kept: (c) counted by hand, since over `chunks_exact`, `take_while` and `count` it stays open that each place is used, and `rchunks_exact` has no clause on its runs.
fn blocks_first(left: &[u8]) -> usize
    ensures within { result ≤ length left.now }
    ensures used { (k : ℕ) → k < result → 0 < slice_index left.now k }
{
    let mut long = 0;
    while left.len() - long >= BLOCK && all_used(&left[long..long + BLOCK]) {
        long += BLOCK;
    }
    long
}

// And at how many up to the last.
fn used_last(left: &[u8]) -> usize
    ensures within { result ≤ length left.now }
    ensures used { (k : ℕ) → length left.now - result ≤ k → k < length left.now → 0 < slice_index left.now k }
    ensures stops { result < length left.now → slice_index left.now (length left.now - 1 - result) ≡ 0 }
{
    let end = left.len() - blocks_last(left);
    let start = left[..end]
        .iter()
        .rposition(|&uses| uses == 0)
        .map_or(0, |stop| stop + 1);
    left.len() - start
}

// Kept: (d) one of both directions would take a flag at each slice and sum.
fn blocks_last(left: &[u8]) -> usize
    ensures within { result ≤ length left.now }
    ensures used { (k : ℕ) → length left.now - result ≤ k → k < length left.now → 0 < slice_index left.now k }
{
    let mut end = left.len();
    while end >= BLOCK && all_used(&left[end - BLOCK..end]) {
        end -= BLOCK;
    }
    left.len() - end
}

fn all_used(block: &[u8]) -> bool
    ensures { result ≡ true → (k : ℕ) → k < length block.now → 0 < slice_index block.now k }
{
    let mut all = true;
    for uses in block {
        all &= *uses > 0;
    }
    all
}
