// The uses that meet at a spot.
ghost use Rattle.std.specs.Prelude.{◌≡◌, ◌≤◌};
ghost use Rattle.house.specs.Reading.{house_of, spot_of};
ghost use Rattle.walk.specs.Codes.{byte_of};
ghost use Rattle.uses.specs.Rounding.{used_at, meeting};

use crate::crossing::Crossing;
use crate::looking::look;
use walk::Step;

impl Crossing<'_> {
    // How often the stretch in the direction of a step is used. Where the step leads out there is none.
    fn used(self, step: Step) -> u16
        ensures is { result ≡ used_at (house_of self.entry.house) self.entry.entries.now (spot_of self.entry.at) (byte_of step) }
        ensures small { result ≤ 255 }
    {
        look(self.house, self.at, step).map_or(0, |(entry, _)| u16::from(self.entries[entry]))
    }

    pub(crate) fn meeting(self) -> u16
        ensures { result ≡ meeting (house_of self.entry.house) self.entry.entries.now (spot_of self.entry.at) }
    {
        // Kept: (c) with `map` and `sum` over the six steps it stays open that the sum fits and that it is `meeting`.
        let mut uses = 0;
        for step in Step::ALL {
            uses += self.used(step);
        }
        uses
    }
}
