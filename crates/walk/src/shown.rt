// A verdict as the line that the program prints.
ghost use Rattle.std.specs.Prelude.{Some};
ghost use Rattle.walk.specs.Shown.{verdict_line};

use crate::verdict::Verdict;
use std::fmt;

impl fmt::Display for Verdict {
    ghost output = { λ x. Some (verdict_line x) };

    fn fmt<W: fmt::Write>(&self, f: &mut fmt::Formatter<W>) -> fmt::Result {
        match *self {
            Verdict::Way(length) => write!(f, "way of length {length}"),
            Verdict::EndsElsewhere => write!(f, "ends elsewhere"),
            Verdict::Misses(pick) => write!(f, "misses {pick}"),
        }
    }
}
