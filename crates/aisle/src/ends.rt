// How often a use takes each step of its aisle, what it does to the two ends, and what it costs.
ghost use Rattle.std.specs.Prelude.{◌≡◌, ◌+◌, ◌-◌, ◌*◌, min, ◌&&◌, if◌then◌else◌, nat_le, nat_lt};
ghost use Rattle.aisle.specs.Costs.{hole, steps_of_use, front_of, back_of, joins, use_cost};
ghost use Rattle.aisle.specs.Values.{use_of};

use crate::kinds::{AisleUse, Gap};

// The uses at the front and at the back of an aisle, and whether the two are linked within it.
#[derive(Clone, Copy, Debug, PartialEq, Eq)]
pub struct Ends {
    pub front: u8,
    pub back: u8,
    pub joined: bool,
}

impl Gap {
    // Whether the step from depth y on lies in the gap.
    fn holds(self, y: u8) -> bool
        ensures { result ≡ nat_le self.lo y && nat_lt y self.hi }
    {
        (self.lo..self.hi).contains(&y)
    }

    // How often the step from depth y on is used by what leaves the gap out.
    fn uses_around(self, y: u8) -> u8
        ensures { result ≡ hole self.lo self.hi y }
    {
        if self.holds(y) { 0 } else { 2 }
    }

    // How many of the steps of an aisle lie in the gap.
    fn steps(self, deep: u8) -> u8
        ensures { result ≡ min deep self.hi - min deep self.lo }
    {
        deep.min(self.hi).saturating_sub(deep.min(self.lo))
    }
}

impl AisleUse {
    // How often the step from depth y to the next is used.
    pub fn uses_of_step(self, y: u8) -> u8
        ensures { result ≡ steps_of_use (use_of self) y }
    {
        match self {
            AisleUse::Once => 1,
            AisleUse::Twice => 2,
            AisleUse::Leaving(gap) => gap.uses_around(y),
        }
    }

    fn is_joined(self) -> bool
        ensures { (if result then 1 else 0) ≡ joins (use_of self) }
    {
        match self {
            AisleUse::Once | AisleUse::Twice => true,
            AisleUse::Leaving(gap) => gap.hi <= gap.lo,
        }
    }

    // What the use does to the two ends of an aisle so many steps deep.
    pub fn ends(self, deep: u8) -> Ends
        ensures front { result.front ≡ front_of (use_of self) }
        ensures back { result.back ≡ back_of deep (use_of self) }
        ensures joined { (if result.joined then 1 else 0) ≡ joins (use_of self) }
    {
        Ends {
            front: self.uses_of_step(0),
            back: self.uses_of_step(deep.saturating_sub(1)),
            joined: self.is_joined(),
        }
    }

    // How many uses it saves against walking through both ways.
    fn saved(self, deep: u8) -> u16
        ensures { use_cost deep (use_of self) + result ≡ 2 * deep }
    {
        match self {
            AisleUse::Once => u16::from(deep),
            AisleUse::Twice => 0,
            AisleUse::Leaving(gap) => 2 * u16::from(gap.steps(deep)),
        }
    }

    // The uses of all steps of an aisle so many steps deep.
    pub fn cost(self, deep: u8) -> u16
        ensures { result ≡ use_cost deep (use_of self) }
    {
        2 * u16::from(deep) - self.saved(deep)
    }
}
