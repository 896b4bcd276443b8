// What the next aisle costs, by the effect of its use.
ghost use Rattle.std.specs.Prelude.{◌≡◌};
ghost use Rattle.std.specs.Option.{option_map};
ghost use Rattle.aisle.specs.Costs.{Effect as EffectOnEnds};
ghost use Rattle.aisle.specs.Values.{effect_of, reach_of};
ghost use Rattle.partial.specs.Prices.{priced, price_from};

use aisle::{Effect, Reach, cheapest};

// The cost of the cheapest use with each effect, at the place of its number; `u32::MAX` where there is none.
#[derive(Clone, Copy)]
pub(crate) struct Prices([u32; 6]);

fn price(deep: u8, reach: Option<Reach>, effect: Effect) -> u32
    ensures { result ≡ price_from deep (option_map reach_of reach) (effect_of effect) }
{
    cheapest(deep, reach, effect).map_or(u32::MAX, |way| u32::from(way.cost(deep)))
}

impl Prices {
    // The prices of an aisle, by the reach of its picks.
    pub(crate) fn past(deep: u8, reach: Option<Reach>) -> Prices
        ensures { (e : EffectOnEnds) → priced result e ≡ price_from deep (option_map reach_of reach) e }
    {
        Prices(Effect::ALL.map(|effect| price(deep, reach, effect)))
    }

    pub(crate) fn of(self, effect: Effect) -> u32
        ensures { result ≡ priced self (effect_of effect) }
    {
        self.0[effect as usize]
    }
}
