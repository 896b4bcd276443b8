// A house and the spots in it, as the code has them.
ghost use Rattle.std.specs.Prelude.{◌≤◌};

// A warehouse of parallel aisles between a front way and a back way, within the bounds that planning is made for.
#[derive(Clone, Copy, Debug, PartialEq, Eq)]
pub struct House {
    pub aisles: u8,
    // steps from the front way to the back way
    pub deep: u8,
    // steps from an aisle to the next
    pub apart: u8,
    ghost some_aisle: { 1 ≤ aisles },
    ghost few_aisles: { aisles ≤ 64 },
    ghost some_depth: { 2 ≤ deep },
    ghost little_depth: { deep ≤ 200 },
    ghost some_way: { 1 ≤ apart },
    ghost little_way: { apart ≤ 200 },
}

// A depth in an aisle. Spots are in order by aisle and then depth.
#[derive(Clone, Copy, Debug, PartialEq, Eq, PartialOrd, Ord)]
pub struct Spot {
    pub aisle: u8,
    pub depth: u8,
}
