// The picks of a list, one after the other or by their place.
ghost use Rattle.std.specs.Prelude.{◌≡◌, ◌/◌, length};
ghost use Rattle.std.specs.Iterator.{item_count};
ghost use Rattle.house.specs.Bounds.{picks_of};
ghost use Rattle.house.specs.Reading.{Gets, TakesPick};

use crate::layout::Spot;
use crate::picks::PickList;

// The picks of a list, first to last.
#[derive(Clone, Copy, Debug)]
pub struct Picks<'a> {
    pub bytes: &'a [u8],
}

// The picks whose bytes these are; an odd byte at the end is none.
pub fn picks_in(list: &[u8]) -> Picks<'_>
    ensures bytes { result.bytes.now ≡ list.now }
    ensures count { length (picks_of result.bytes.now) ≡ length result.bytes.now / 2 }
{
    Picks { bytes: list }
}

impl<'a> PickList<'a> {
    pub fn len(self) -> usize
        ensures { result ≡ length (picks_of self.entry.bytes.now) }
    {
        self.bytes.len() / 2
    }

    pub fn get(self, i: usize) -> Option<Spot>
        ensures { Gets (picks_of self.entry.bytes.now) i result }
    {
        // Kept: (b) by the slice's methods it takes 4.5 times the instructions, where a caller goes through a list by place.
        if i < self.len() {
            Some(Spot {
                aisle: self.bytes[2 * i],
                depth: self.bytes[2 * i + 1],
            })
        } else {
            None
        }
    }

    pub fn iter(self) -> Picks<'a>
        ensures { result.bytes.now ≡ self.entry.bytes.now }
    {
        picks_in(self.bytes)
    }
}

impl<'a> IntoIterator for PickList<'a> {
    type Item = Spot;

    type IntoIter = Picks<'a>;

    ghost into_iter_gives = { λ list picks. picks.bytes.now ≡ list.bytes.now };

    fn into_iter(self) -> Picks<'a> {
        self.iter()
    }
}

impl<'a> Iterator for Picks<'a> {
    type Item = Spot;

    ghost next_gives = { TakesPick };

    ghost remaining = { item_count (λ s. picks_of s.bytes.now) };

    fn next(&mut self) -> Option<Spot> {
        let [aisle, depth, rest @ ..] = self.bytes else {
            return None;
        };
        self.bytes = rest;
        Some(Spot {
            aisle: *aisle,
            depth: *depth,
        })
    }
}
