// The table of partial tours, filled by recursion over the aisles that are left.
ghost use Rattle.std.specs.Prelude.{◌-◌, ◌<◌, ◌≤◌, length, drop};
ghost use Rattle.house.specs.Reading.{house_of};
ghost use Rattle.aisle.specs.Values.{spots_of};
ghost use Rattle.partial.specs.Filling.{row, filled, PartOf};
ghost use Rattle.partial.specs.Lent.{Changed};
ghost use Rattle.partial.specs.Prices.{priced};

use crate::prices::Prices;
use crate::row::Stage;
use crate::table::Tables;
use aisle::{Reach, part_end};
use house::{House, Spot};

// The end of an aisle's picks, and what the aisle costs.
#[derive(Clone, Copy)]
struct Costed {
    to: usize,
    prices: Prices,
}

fn part(house: House, picks: &[Spot], from: usize, aisle: u8) -> Costed
    requires { from ≤ length picks.now }
    ensures { PartOf house.deep aisle picks.now from result.to (priced result.prices) }
{
    let to = part_end(picks, from, aisle);
    let prices = Prices::past(house.deep, Reach::of(&picks[from..to]));
    Costed { to, prices }
}

impl Tables<'_> {
    fn fill_row(&mut self, house: House, aisle: u8, prices: Prices)
        requires { aisle < 64 }
        ensures { Changed (row (house_of house) aisle (priced prices)) self.old self.new }
    {
        if aisle == 0 {
            self.first_row(prices);
        } else {
            let stage = Stage {
                aisle: (aisle - 1) as usize,
                apart: house.apart,
                prices,
            };
            self.next_row(stage);
        }
    }

    // The rows from an aisle on, for the picks from a place on.
    pub(crate) fn fill(&mut self, house: House, picks: &[Spot], from: usize, aisle: u8)
        requires { from ≤ length picks.now }
        ensures { Changed (filled (house_of house) (house.aisles - aisle) aisle (spots_of (drop from picks.now))) self.old self.new }
    {
        if aisle >= house.aisles {
            return;
        }
        let next = part(house, picks, from, aisle);
        self.fill_row(house, aisle, next.prices);
        self.fill(house, picks, next.to, aisle + 1);
    }
}
