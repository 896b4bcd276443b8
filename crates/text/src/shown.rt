// Pieces and misuses as the lines that the programs print.
ghost use Rattle.std.specs.Prelude.{Some};
ghost use Rattle.text.specs.Commands.{misuse_line};
ghost use Rattle.text.specs.Piece.{piece_text};

use crate::command::Misuse;
use crate::piece::Piece;
use std::error::Error;
use std::fmt;

impl fmt::Display for Piece {
    ghost output = { λ x. Some (piece_text x) };

    fn fmt<W: fmt::Write>(&self, f: &mut fmt::Formatter<W>) -> fmt::Result {
        write!(f, "{} {}", self.words(), self.steps)
    }
}

impl fmt::Display for Misuse<'_> {
    ghost output = { λ x. Some (misuse_line x) };

    fn fmt<W: fmt::Write>(&self, f: &mut fmt::Formatter<W>) -> fmt::Result {
        match *self {
            Misuse::Unknown(name) => write!(f, "unknown option {name}"),
            Misuse::TooMany => write!(f, "too many arguments"),
        }
    }
}

impl Error for Misuse<'_> {}
