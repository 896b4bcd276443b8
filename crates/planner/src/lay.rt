// The uses of a plan, laid down in lent memory.
ghost use Rattle.std.specs.Prelude.{◌≡◌, ℕ, ◌+◌, ◌<◌, ◌≤◌, ◌⊎◌, length, Some, slice_index};
ghost use Rattle.std.specs.Option.{option_map};
ghost use Rattle.house.specs.Reading.{house_of};
ghost use Rattle.aisle.specs.Costs.{leaving};
ghost use Rattle.aisle.specs.Reach.{depths_of};
ghost use Rattle.aisle.specs.Values.{use_of, spots_of};
ghost use Rattle.classes.specs.Classes.{passage_front, passage_back};
ghost use Rattle.classes.specs.Values.{passage_of};
ghost use Rattle.partial.specs.Choice.{number_of};
ghost use Rattle.planner.specs.Laying.{steps_or_none, Painted, reached, Adds, Laid, at, part_at};

use aisle::{AisleUse, Gap, cheapest_past, part_end};
use classes::Passage;
use house::{House, Spot};
use partial::Choice;
use uses::layout;

// Writes one value so many times, from one entry on.
fn fill_run(uses: &mut [u8], start: usize, n: usize, value: u8)
    requires { start + n ≤ length uses.old }
    ensures inside { (i : ℕ) → i < n → slice_index uses.new (start + i) ≡ value }
    ensures outside { (i : ℕ) → (i < start) ⊎ (start + n ≤ i) → slice_index uses.new i ≡ slice_index uses.old i }
{
    uses[start..start + n].fill(value);
}

fn paint_gap(uses: &mut [u8], start: usize, deep: u8, gap: Gap)
    requires { start + deep ≤ length uses.old }
    ensures { Painted start deep (Some (leaving gap.lo gap.hi)) uses.old uses.new }
{
    fill_run(uses, start, deep as usize, 2);
    let lo = deep.min(gap.lo);
    let hi = deep.min(gap.hi);
    fill_run(uses, start + lo as usize, hi.saturating_sub(lo) as usize, 0);
}

fn step_uses(way: Option<AisleUse>, depth: u8) -> u8
    ensures { result ≡ steps_or_none (option_map use_of way) depth }
{
    way.map_or(0, |way| way.uses_of_step(depth))
}

// The uses of an aisle, whose entries begin at `start`, in runs of one value: but for a gap all steps are used alike.
// Kept: (c) over the part `&mut uses[start..start + deep]` alone `returns` stays open in `paint_gap` and in `lay_aisle`.
fn paint(uses: &mut [u8], start: usize, deep: u8, way: Option<AisleUse>)
    requires { start + deep ≤ length uses.old }
    ensures { Painted start deep (option_map use_of way) uses.old uses.new }
{
    match way {
        Some(AisleUse::Leaving(gap)) => paint_gap(uses, start, deep, gap),
        _ => fill_run(uses, start, deep as usize, step_uses(way, 0)),
    }
}

// How often passages are used, at the front and at the back.
fn passage_uses(passage: Passage) -> (u8, u8)
    ensures { (result.0 ≡ passage_front (passage_of passage)) × (result.1 ≡ passage_back (passage_of passage)) }
{
    match passage {
        Passage::None => (0, 0),
        Passage::OneEach => (1, 1),
        Passage::TwoFront => (2, 0),
        Passage::TwoBack => (0, 2),
        Passage::TwoEach => (2, 2),
    }
}

// The uses of the passages to an aisle.
fn cross(uses: &mut [u8], house: House, aisle: u8, passage: Passage)
    requires { (12926 ≤ length uses.old) × (aisle < house.aisles) }
    ensures { uses.new ≡ reached (house_of house) aisle (passage_of passage) uses.old }
{
    if aisle > 0 {
        let front = layout::front(house, aisle - 1);
        let back = layout::back(house, aisle - 1);
        (uses[front], uses[back]) = passage_uses(passage);
    }
}

// The uses of one aisle and of the passages to it.
fn lay_aisle(uses: &mut [u8], house: House, aisle: u8, choice: Choice, picks: &[Spot])
    requires { (12926 ≤ length uses.old) × (aisle < house.aisles) }
    ensures { Adds (house_of house) aisle (number_of choice) (depths_of (spots_of picks.now)) uses.old uses.new }
{
    let way = cheapest_past(house.deep, picks, choice.effect);
    paint(uses, layout::lane(house, aisle, 0), house.deep, way);
    cross(uses, house, aisle, choice.passage);
}

// The uses of the plan with the choices of these numbers, for picks in order.
pub(crate) fn lay(house: House, picks: &[Spot], numbers: [u8; 64], uses: &mut [u8])
    requires { 12926 ≤ length uses.old }
    ensures { Laid (house_of house) (at numbers) (part_at (spots_of picks.now)) house.aisles uses.old uses.new }
{
    let mut from = 0;
    // Kept: (c) over `(0..house.aisles).zip(numbers)` it stays open that the part of the picks begins within them.
    for aisle in 0..house.aisles {
        let to = part_end(picks, from, aisle);
        let choice = Choice::from(numbers[aisle as usize]);
        lay_aisle(uses, house, aisle, choice, &picks[from..to]);
        from = to;
    }
}
