// What a step from a spot goes along, by its place in a slice of uses, and where it leads.
ghost use Rattle.std.specs.Prelude.{◌≡◌, Some};
ghost use Rattle.house.specs.House as ideal;
ghost use Rattle.house.specs.Reading.{house_of, spot_of};
ghost use Rattle.walk.specs.Codes.{byte_of};
ghost use Rattle.walk.specs.Steps.{landing};
ghost use Rattle.uses.specs.Layout.{place};
ghost use Rattle.uses.specs.Looking.{edge_by, Sees, Looks};

use crate::layout::{back, front, lane};
use house::{House, Spot};
use walk::{Step, landing};

// The place of what the step goes along, and the spot to which it leads; or none where it leads out of the house.
pub fn look(house: House, from: Spot, step: Step) -> Option<(usize, Spot)>
    ensures { Looks (house_of house) (spot_of from) (byte_of step) result }
{
    let to = landing(house, from, step)?;
    Some((seen_entry(house, from, step), to))
}

// The place of what the step goes along, wherever it leads.
fn seen_entry(house: House, from: Spot, step: Step) -> usize
    ensures { (t : ideal.Spot) → Some t ≡ landing (house_of house) (spot_of from) (byte_of step) → Sees (house_of house) (spot_of from) (byte_of step) result t }
{
    entry(house, from, step)
}

// Kept: (d) one line for each step says what it goes along, as `landing` says where it leads.
fn entry(house: House, from: Spot, step: Step) -> usize
    ensures { result ≡ place (house_of house) (edge_by (house_of house) (spot_of from) (byte_of step)) }
{
    match step {
        Step::Deeper => lane(house, from.aisle, from.depth),
        Step::Back => lane(house, from.aisle, from.depth.saturating_sub(1)),
        Step::NextFront => front(house, from.aisle),
        Step::BeforeFront => front(house, from.aisle.saturating_sub(1)),
        Step::NextBack => back(house, from.aisle),
        Step::BeforeBack => back(house, from.aisle.saturating_sub(1)),
    }
}
