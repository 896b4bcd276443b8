// The checker of a way that is claimed to be a tour past the picks of a list.
ghost use Rattle.std.specs.Prelude.{◌≡◌, false, not, replicate, nat_lt, Some};
ghost use Rattle.std.specs.List.{position_from};
ghost use Rattle.house.specs.House.{desk};
ghost use Rattle.house.specs.Bounds.{picks_of};
ghost use Rattle.house.specs.Rules.{first_from};
ghost use Rattle.house.specs.Reading.{house_of, spot_of, PassesOn};
ghost use Rattle.walk.specs.Steps.{follow, trace};
ghost use Rattle.walk.specs.Marking.{all_marked, unmarked, WalksOver};
ghost use Rattle.walk.specs.Checking.{step_rule, verdict_of, check_of};

use crate::going::{DESK, onward};
use crate::length::measure;
use crate::marks::Marks;
use crate::step::Step;
use crate::verdict::Verdict;
use house::{House, PickList, Refusal, Spot, read_claim};

// Judges the way of a file that claims it to be a tour past its picks. Inside a large caller its loops would lack registers.
#[inline(never)]
pub fn check(file: &[u8]) -> Result<Verdict, Refusal>
    ensures { result ≡ check_of file.now }
{
    let claim = read_claim(file)?;
    let way = only_steps(claim.way)?;
    let mut marks = Marks::none();
    let end = walk_over(claim.picks.house, way, &mut marks)?;
    Ok(judged(claim.picks, way, end, &marks))
}

// Holds each byte of a way to the six steps.
#[tactic(auto, using(crate::proofs::Chains::stray_position))]
pub fn only_steps(way: &[u8]) -> Result<&[u8], Refusal>
    ensures { PassesOn way.now (step_rule way.now) result }
{
    // Kept: (a) the request prescribes that a check hands on its value or returns its refusal by `let .. else`.
    let Some(place) = first_stray(way) else {
        return Ok(way);
    };
    Err(Refusal::NoStep(place))
}

// The first byte that is no step.
fn first_stray(way: &[u8]) -> Option<usize>
    ensures { result ≡ position_from (λ b. not (nat_lt b 6)) 0 way.now }
{
    way.iter().position(|byte| Step::try_from(*byte).is_err())
}

// Walks over a row of steps from the desk, and marks each spot that it passes.
fn walk_over(house: House, way: &[u8], marks: &mut Marks) -> Result<Spot, Refusal>
    ensures { WalksOver (house_of house) way.now marks.old.flags marks.new.flags result }
{
    let mut at = DESK;
    marks.mark(at);
    for (i, byte) in way.iter().enumerate() {
        at = onward(house, at, *byte).ok_or(Refusal::LeadsOut(i))?;
        marks.mark(at);
    }
    Ok(at)
}

// The verdict on a way that leads to `end` past the marked spots.
fn judged(picks: PickList<'_>, way: &[u8], end: Spot, marks: &Marks) -> Verdict
    requires leads { follow (house_of picks.house) desk way.now ≡ Some (spot_of end) }
    requires marks { marks.now.flags ≡ all_marked (replicate 12864 false) (trace (house_of picks.house) desk way.now) }
    ensures { result ≡ verdict_of (house_of picks.entry.house) (picks_of picks.entry.bytes.now) way.now }
{
    if end != DESK {
        return Verdict::EndsElsewhere;
    }
    match first_missed(picks, marks) {
        Some(pick) => Verdict::Misses(pick),
        None => Verdict::Way(measure(picks.house, way)),
    }
}

// The first pick that is not marked.
fn first_missed(picks: PickList<'_>, marks: &Marks) -> Option<usize>
    ensures { result ≡ first_from (unmarked marks.now.flags) 0 (picks_of picks.entry.bytes.now) }
{
    picks.iter().position(|pick| !marks.has(pick))
}
