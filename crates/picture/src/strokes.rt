// The lines of a way.
ghost use Rattle.std.specs.Prelude.{◌≡◌, ◌++◌, None, string_bytes, MatchOption, OnOk};
ghost use Rattle.house.specs.House.{desk};
ghost use Rattle.house.specs.Reading.{house_of, spot_of};
ghost use Rattle.walk.specs.Codes.{byte_of};
ghost use Rattle.walk.specs.Steps.{landing};
ghost use Rattle.picture.specs.Strokes.{last_of, come_to, line_begun, line_ended, turned, strokes};

use crate::places::{Point, end, middle, start};
use house::{House, Spot};
use std::alloc::AllocError;
use walk::{DESK, Step};

// Where the drawing of a way has come to, and the step that led there; none did where the way begins.
#[derive(Clone, Copy)]
struct Pen {
    at: Spot,
    last: Option<Step>,
}

// A line for each piece of the way, up to the first step that leads out of the house.
#[tactic(auto, unfolding(crate::specs::Strokes::strokes))]
pub(crate) fn add_strokes(text: &mut String, house: House, way: &[u8]) -> Result<(), AllocError>
    ensures { OnOk result (string_bytes text.new ≡ string_bytes text.old ++ strokes (house_of house) desk None way.now) }
{
    let mut pen = Pen {
        at: DESK,
        last: None,
    };
    for byte in way {
        let Some((step, at)) = leads(house, pen.at, *byte) else {
            break;
        };
        pen.add_turn(text, step)?;
        pen = Pen {
            at,
            last: Some(step),
        };
    }
    pen.add_end(text)
}

// The step that a byte is read as, and where it leads; none where it leads out of the house.
fn leads(house: House, from: Spot, byte: u8) -> Option<(Step, Spot)>
    ensures { MatchOption result (landing (house_of house) (spot_of from) byte ≡ None)
        (λ led. (byte_of led.0 ≡ byte) × (landing (house_of house) (spot_of from) byte ≡ Some (spot_of led.1))) }
{
    let step = Step::try_from(byte).ok()?;
    let at = walk::landing(house, from, step)?;
    Some((step, at))
}

impl Pen {
    // What a step adds to the way: nothing where it goes on as the step before it.
    fn add_turn(self, text: &mut String, step: Step) -> Result<(), AllocError>
        ensures { OnOk result (string_bytes text.new ≡ string_bytes text.old ++ turned (spot_of self.at) (last_of self.last) (byte_of step)) }
    {
        if self.last == Some(step) {
            return Ok(());
        }
        self.add_end(text)?;
        self.add_start(text, step)
    }

    fn add_start(self, text: &mut String, step: Step) -> Result<(), AllocError>
        ensures { OnOk result (string_bytes text.new ≡ string_bytes text.old ++ line_begun (spot_of self.at) (last_of self.last) (byte_of step)) }
    {
        let from = self.come_to();
        let first = start(self.at, step);
        write!(text, "<polyline points='{from} {first} ")
    }

    fn add_end(self, text: &mut String) -> Result<(), AllocError>
        ensures { OnOk result (string_bytes text.new ≡ string_bytes text.old ++ line_ended (spot_of self.at) (last_of self.last)) }
    {
        let Some(step) = self.last else {
            return Ok(());
        };
        let tip = end(self.at, step);
        writeln!(text, "{tip}'/>")
    }

    // The way begins in the middle of a spot.
    fn come_to(self) -> Point
        ensures { result ≡ come_to (spot_of self.at) (last_of self.last) }
    {
        self.last
            .map_or_else(|| middle(self.at), |step| end(self.at, step))
    }
}
