// The lines that tell of a way.
ghost use Rattle.std.specs.Prelude.{◌≡◌, ◌*◌, IfOk, string_bytes};
ghost use Rattle.house.specs.Reading.{house_of};
ghost use Rattle.walk.specs.Steps.{worth, measure};
ghost use Rattle.text.specs.Lines.{piece_lines, way_text};
ghost use Rattle.text.specs.Piece.{count_of, sort_of};

use crate::piece::Piece;
use crate::pieces::Pieces;
use house::House;
use std::alloc::{AllocError, Global};
use walk::worth;

// A line for each piece of the way, and last its length.
pub fn way_text(heap: Global, house: House, way: &[u8]) -> Result<String, AllocError>
    ensures { IfOk result (λ s. string_bytes s ≡ way_text (house_of house) way.now) }
{
    let mut text = piece_lines(heap, way)?;
    writeln!(text, "length {}", measure(house, way))?;
    Ok(text)
}

// The lines of the pieces; what follows the pieces has no line.
fn piece_lines(heap: Global, way: &[u8]) -> Result<String, AllocError>
    ensures { IfOk result (λ s. string_bytes s ≡ piece_lines way.now) }
{
    let mut text = String::new(heap);
    for piece in Pieces::of(way) {
        writeln!(text, "{piece}")?;
    }
    Ok(text)
}

// The length of a way by its pieces; what follows the pieces may be long too.
// Kept: (b) with `walk::measure` alone, a step at a time, plan takes 21% more instructions on bench/lists/full.list: 796,436 instead of 655,637.
fn measure(house: House, way: &[u8]) -> u128
    ensures { result ≡ measure (house_of house) way.now }
{
    let mut pieces = Pieces::of(way);
    let mut length = 0;
    // Kept: (c) what is left of `pieces` after a `for piece in pieces.by_ref()` is not told, so that `returns` stays open.
    while let Some(piece) = pieces.next() {
        length += piece_length(house, piece);
    }
    length + walk::measure(house, pieces.rest())
}

fn piece_length(house: House, piece: Piece) -> u128
    ensures { result ≡ count_of piece * worth (house_of house) (sort_of piece) }
{
    piece.steps as u128 * u128::from(worth(house, piece.step))
}
