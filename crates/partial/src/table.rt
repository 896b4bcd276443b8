// The table of partial tours in lent memory: for each aisle and class the length of the shortest, and where it came from.
ghost use Rattle.std.specs.Prelude.{◌≡◌, ◌<◌};
ghost use Rattle.partial.specs.Choice.{number_of};
ghost use Rattle.partial.specs.Lent.{Changed};
ghost use Rattle.partial.specs.Table.{cell, offer, toll, cleared};
ghost use Rattle.classes.specs.Values.{class_of, passage_of};

use crate::choice::Choice;
use classes::{Class, Passage};

// Seven classes for each of 64 aisles.
pub const CELLS: usize = 448;

// Kept: (a) the request prescribes lent slices of u32 and u8 that are written together.
#[derive(Drop)]
pub(crate) struct Tables<'a> {
    pub(crate) lengths: &'a mut [u32; CELLS],
    pub(crate) came: &'a mut [u8; CELLS],
}

pub(crate) fn cell(aisle: usize, class: Class) -> usize
    requires { aisle < 64 }
    ensures place { result ≡ cell aisle (class_of class) }
    ensures within { result < 448 }
{
    7 * aisle + class as usize
}

// What passages cost.
pub(crate) fn toll(apart: u8, passage: Passage) -> u32
    ensures { result ≡ toll apart (passage_of passage) }
{
    match passage {
        Passage::None => 0,
        Passage::OneEach | Passage::TwoFront | Passage::TwoBack => 2 * apart as u32,
        Passage::TwoEach => 4 * apart as u32,
    }
}

impl Tables<'_> {
    // A cell takes an offer that is shorter than what it holds. The two tables are written together.
    pub(crate) fn offer(&mut self, at: usize, total: u32, choice: Choice)
        requires { at < 448 }
        ensures { Changed (offer at total (number_of choice)) self.old self.new }
    {
        if total < self.lengths[at] {
            self.lengths[at] = total;
            self.came[at] = choice.into();
        }
    }

    // No partial tour of any class.
    pub(crate) fn clear_row(&mut self, aisle: usize)
        requires { aisle < 64 }
        ensures { Changed (cleared aisle) self.old self.new }
    {
        // Kept: (c) by `fill` a part is taken of what lies behind a reference, which is not covered.
        for class in Class::ALL {
            let at = cell(aisle, class);
            self.lengths[at] = u32::MAX;
            self.came[at] = 0;
        }
    }
}
