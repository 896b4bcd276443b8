// The cheapest use of an aisle for each effect on its ends.
ghost use Rattle.std.specs.Prelude.{◌≡◌};
ghost use Rattle.std.specs.Option.{option_map};
ghost use Rattle.aisle.specs.Costs.{Depths, best, leaving_gap, LeastUse};
ghost use Rattle.aisle.specs.Reach.{depths_of, best_from};
ghost use Rattle.aisle.specs.Values.{effect_of, gap_of, reach_of, spots_of, use_of};

use crate::kinds::{AisleUse, Effect, Gap};
use crate::reach::Reach;
use house::Spot;

// A gap may be left out if it is not empty.
fn leave_out(gap: Gap) -> Option<AisleUse>
    ensures { option_map use_of result ≡ leaving_gap (gap_of gap) }
{
    (gap.lo < gap.hi).then_some(AisleUse::Leaving(gap))
}

// The cheapest use that has the effect, by the reach of the aisle's picks; none where no use has it.
pub fn cheapest(deep: u8, reach: Option<Reach>, effect: Effect) -> Option<AisleUse>
    ensures { option_map use_of result ≡ best_from deep (option_map reach_of reach) (effect_of effect) }
{
    match (effect, reach) {
        (Effect::Nothing, None) => Some(AisleUse::Leaving(Gap { lo: 0, hi: deep })),
        (Effect::FromFront, Some(reach)) => Some(AisleUse::Leaving(Gap {
            lo: reach.last,
            hi: deep,
        })),
        (Effect::FromBack, Some(reach)) => Some(AisleUse::Leaving(Gap {
            lo: 0,
            hi: reach.first,
        })),
        (Effect::BothEnds, Some(reach)) => leave_out(reach.gap),
        (Effect::ThroughOnce, _) => Some(AisleUse::Once),
        (Effect::ThroughTwice, _) => Some(AisleUse::Twice),
        _ => None,
    }
}

// The cheapest use that has the effect: where the picks stand inside the aisle in order of depth, no other use that has it costs less.
pub fn cheapest_past(deep: u8, part: &[Spot], effect: Effect) -> Option<AisleUse>
    ensures best { option_map use_of result ≡ best deep (depths_of (spots_of part.now)) (effect_of effect) }
    ensures least { Depths deep (depths_of (spots_of part.now)) → LeastUse deep (depths_of (spots_of part.now)) (effect_of effect) (option_map use_of result) }
{
    cheapest(deep, Reach::of(part), effect)
}
