// A refusal as the line that the programs print.
ghost use Rattle.std.specs.Prelude.{Some};
ghost use Rattle.house.specs.Shown.{refusal_line};

use crate::refusal::Refusal;
use std::error::Error;
use std::fmt;

impl fmt::Display for Refusal {
    ghost output = { λ x. Some (refusal_line x) };

    fn fmt<W: fmt::Write>(&self, f: &mut fmt::Formatter<W>) -> fmt::Result {
        let number = self.number();
        let place = self.place();
        write!(f, "refused {number} at {place}")
    }
}

impl Error for Refusal {}
