// The theorems of this crate: each function asks for the proof of the statement that its contract names.
ghost use Rattle.aisle.specs.Costs.{BestIsLeast};
ghost use Rattle.aisle.specs.Kinds.{KindsEnough, NeighboursEnough};
ghost use Rattle.aisle.specs.Promise.{SortedIsExact, SortedByAisle};

pub fn kinds_enough() -> u8
    ensures { KindsEnough }
{
    0
}

pub fn neighbours_enough() -> u8
    ensures { NeighboursEnough }
{
    0
}

pub fn best_is_least() -> u8
    ensures { BestIsLeast }
{
    0
}

pub fn sorted_is_exact() -> u8
    ensures { SortedIsExact }
{
    0
}

pub fn sorted_by_aisle() -> u8
    ensures { SortedByAisle }
{
    0
}
