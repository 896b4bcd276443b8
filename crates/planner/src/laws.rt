// The theorems of this crate: each function asks for the proof of the statement that its contract names.
ghost use Rattle.planner.specs.Promise.{ShortestExists, WorkedLengths, Exchange, PlansAreRound, PlansEnough, RowsAreLeast, TableIsLeast, PlansHaveClasses};

pub fn shortest_exists() -> u8
    ensures { ShortestExists }
{
    0
}

pub fn worked_lengths() -> u8
    ensures { WorkedLengths }
{
    0
}

pub fn exchange() -> u8
    ensures { Exchange }
{
    0
}

pub fn plans_are_round() -> u8
    ensures { PlansAreRound }
{
    0
}

pub fn plans_enough() -> u8
    ensures { PlansEnough }
{
    0
}

pub fn rows_are_least() -> u8
    ensures { RowsAreLeast }
{
    0
}

pub fn table_is_least() -> u8
    ensures { TableIsLeast }
{
    0
}

pub fn plans_have_classes() -> u8
    ensures { PlansHaveClasses }
{
    0
}
