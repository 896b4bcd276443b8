// A pick list that fits its house, and a claim of a way past its picks. Both borrow their bytes from the file that they were read from.
ghost use Rattle.std.specs.Prelude.{◌≤◌, length};
ghost use Rattle.house.specs.Bounds.{Whole, InAisles, OnShelves};

use crate::layout::House;

// At most 512 picks, two bytes for each, its aisle and its depth; a pick may be named more than once.
#[derive(Clone, Copy, Debug, PartialEq, Eq)]
pub struct PickList<'a> {
    pub house: House,
    pub bytes: &'a [u8],
    ghost whole: { Whole bytes.now },
    ghost few: { length bytes.now ≤ 1024 },
    ghost in_aisles: { InAisles house.aisles bytes.now },
    ghost on_shelves: { OnShelves house.deep bytes.now },
}

// A list with the way that is claimed to be a tour past its picks.
#[derive(Clone, Copy, Debug, PartialEq, Eq)]
pub struct ClaimedWay<'a> {
    pub picks: PickList<'a>,
    // a byte for each step
    pub way: &'a [u8],
}
