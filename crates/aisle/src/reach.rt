// What the cheapest uses of an aisle need to know of its picks, found in one pass over them.
ghost use Rattle.std.specs.Prelude.{◌≡◌, ◌-◌};
ghost use Rattle.std.specs.Option.{option_map};
ghost use Rattle.aisle.specs.Costs.{wider};
ghost use Rattle.aisle.specs.Reach.{depths_of, only_at, on_to, along, reach_in};
ghost use Rattle.aisle.specs.Values.{gap_of, reach_of, spots_of};

use crate::kinds::Gap;
use house::Spot;

#[derive(Clone, Copy, Debug, PartialEq, Eq)]
pub struct Reach {
    // the depth of the first pick
    pub first: u8,
    // the depth of the last pick
    pub last: u8,
    // the widest gap between two neighbouring picks, the first of several as wide; empty where all are at one depth
    pub gap: Gap,
}

impl Gap {
    fn width(self) -> u8
        ensures { result ≡ self.hi - self.lo }
    {
        self.hi.saturating_sub(self.lo)
    }

    // The wider of two gaps, this one if they are as wide.
    // Kept: (d) `max_by_key` hands on the second of two as wide, so the two would stand turned round.
    fn or_wider(self, other: Gap) -> Gap
        ensures { gap_of result ≡ wider (gap_of self) (gap_of other) }
    {
        if self.width() < other.width() {
            other
        } else {
            self
        }
    }
}

impl Reach {
    fn only_at(depth: u8) -> Reach
        ensures { reach_of result ≡ only_at depth }
    {
        Reach {
            first: depth,
            last: depth,
            gap: Gap {
                lo: depth,
                hi: depth,
            },
        }
    }

    // The reach of one pick more.
    fn on_to(self, depth: u8) -> Reach
        ensures { reach_of result ≡ on_to (reach_of self) depth }
    {
        let next = Gap {
            lo: self.last,
            hi: depth,
        };
        Reach {
            first: self.first,
            last: depth,
            gap: self.gap.or_wider(next),
        }
    }

    // The reach of more picks.
    fn past(self, rest: &[Spot]) -> Reach
        ensures { reach_of result ≡ along (reach_of self) (depths_of (spots_of rest.now)) }
    {
        rest.iter()
            .fold(self, |reach, pick| reach.on_to(pick.depth))
    }

    // The reach of the picks of an aisle, or none where there are none.
    pub fn of(part: &[Spot]) -> Option<Reach>
        ensures { option_map reach_of result ≡ reach_in (depths_of (spots_of part.now)) }
    {
        let (first, rest) = part.split_first()?;
        Some(Reach::only_at(first.depth).past(rest))
    }
}
