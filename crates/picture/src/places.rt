// Where things are drawn. Right-hand traffic: a stretch that is walked there and back shows as two lines.
ghost use Rattle.std.specs.Prelude.{◌≡◌, ◌≤◌, Some};
ghost use Rattle.house.specs.Reading.{spot_of};
ghost use Rattle.walk.specs.Codes.{byte_of};
ghost use Rattle.picture.specs.Places.{across, down, point_text, middle_of, start_of, end_of, beside_of};

use house::Spot;
use std::fmt;
use walk::Step;

#[derive(Clone, Copy)]
pub(crate) struct Point {
    pub(crate) x: u32,
    pub(crate) y: u32,
}

impl fmt::Display for Point {
    ghost output = { λ p. Some (point_text p) };

    fn fmt<W: fmt::Write>(&self, f: &mut fmt::Formatter<W>) -> fmt::Result {
        write!(f, "{},{}", self.x, self.y)
    }
}

pub(crate) fn across(aisle: u8) -> u32
    ensures { result ≡ across aisle }
{
    72 + 48 * u32::from(aisle)
}

pub(crate) fn down(depth: u8) -> u32
    ensures { result ≡ down depth }
{
    84 + 14 * u32::from(depth)
}

pub(crate) fn middle(spot: Spot) -> Point
    ensures { result ≡ middle_of (spot_of spot) }
{
    Point {
        x: across(spot.aisle),
        y: down(spot.depth),
    }
}

// Where a row of steps of one sort begins at a spot.
pub(crate) fn start(spot: Spot, step: Step) -> Point
    ensures { result ≡ start_of (spot_of spot) (byte_of step) }
{
    beside(spot, step, 4, 0)
}

// Where it ends at one.
pub(crate) fn end(spot: Spot, step: Step) -> Point
    ensures { result ≡ end_of (spot_of spot) (byte_of step) }
{
    beside(spot, step, 0, 4)
}

// A point on the right of a step's line, so far on from the middle of a spot, or so far short of it.
fn beside(spot: Spot, step: Step, on: u32, short: u32) -> Point
    requires { (on ≤ 4) × (short ≤ 4) }
    ensures { result ≡ beside_of (spot_of spot) (byte_of step) on short }
{
    let Point { x, y } = middle(spot);
    match step {
        Step::Deeper => Point {
            x: x - 6,
            y: y + on - short,
        },
        Step::Back => Point {
            x: x + 6,
            y: y + short - on,
        },
        Step::NextFront | Step::NextBack => Point {
            x: x + on - short,
            y: y + 6,
        },
        Step::BeforeFront | Step::BeforeBack => Point {
            x: x + short - on,
            y: y - 6,
        },
    }
}
