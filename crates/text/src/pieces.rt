// The pieces of a way, one after the other.
ghost use Rattle.std.specs.Prelude.{◌≡◌, ◌==◌};
ghost use Rattle.std.specs.Iterator.{item_count};
ghost use Rattle.std.specs.List.{prefix_len};
ghost use Rattle.text.specs.Pieces.{pieces, first_of, TakesPiece};

use crate::piece::Piece;

// The pieces of what is left of a way, up to the first byte that is no step.
#[derive(Drop)]
pub(crate) struct Pieces<'a> {
    rest: &'a [u8],
}

impl<'a> Pieces<'a> {
    pub(crate) fn of(way: &'a [u8]) -> Pieces<'a>
        ensures { result.rest.now ≡ way.entry.now }
    {
        Pieces { rest: way }
    }

    // What the pieces that are taken have left of the way.
    pub(crate) fn rest(&self) -> &'a [u8]
        ensures { result.now ≡ self.now.rest.now }
    {
        self.rest
    }
}

impl Iterator for Pieces<'_> {
    type Item = Piece;

    ghost next_gives = { TakesPiece };

    ghost remaining = { item_count (λ s. pieces s.rest.now) };

    fn next(&mut self) -> Option<Piece> {
        let piece = first_piece(self.rest)?;
        self.rest = &self.rest[piece.steps..];
        Some(piece)
    }
}

// None where the way is over, or goes on with a byte that is no step.
pub fn first_piece(way: &[u8]) -> Option<Piece>
    ensures { result ≡ first_of (pieces way.now) }
{
    let byte = *way.first()?;
    Piece::of(byte, run(way, byte))
}

// How many bytes at the front of a way are this one; whole blocks come first, which are compared without a branch for each byte.
// Kept: (b) byte by byte alone, plan takes 15% more instructions on bench/lists/full.list: 754,948 instead of 655,637.
fn run(way: &[u8], byte: u8) -> usize
    ensures { result ≡ prefix_len (λ x. byte == x) way.now }
{
    let (blocks, _) = way.as_chunks::<16>();
    let whole = 16 * alike(blocks, &[byte; 16]);
    let (_, rest) = way.split_at(whole);
    whole + short_run(rest, byte)
}

// The same, byte by byte.
fn short_run(way: &[u8], byte: u8) -> usize
    ensures { result ≡ prefix_len (λ x. byte == x) way.now }
{
    way.iter().take_while(|other| byte == **other).count()
}

// How many items at the front are as this one.
fn alike<T: PartialEq>(items: &[T], item: &T) -> usize
    ensures { result ≡ prefix_len (T.eq item.now) items.now }
{
    items.iter().take_while(|other| item == *other).count()
}
