// The choices of the best plan, read back from the table.
ghost use Rattle.std.specs.Prelude.{◌≡◌, ℕ, ◌<◌, ◌≤◌, slice_index};
ghost use Rattle.partial.specs.Tracing.{chosen};
ghost use Rattle.classes.specs.Values.{class_of};

use crate::choice::Choice;
use crate::table::{CELLS, cell};
use classes::Class;

// The number of the choice at each aisle of the plan that ends in a class of the last row.
// Kept: (a) no heap: an array for the most aisles stands where a Vec would.
pub(crate) fn trace(came: &[u8; CELLS], aisles: u8, end: Class) -> [u8; 64]
    requires { aisles ≤ 64 }
    ensures beyond { (a : ℕ) → aisles ≤ a → slice_index result a ≡ 0 }
    ensures each { (a : ℕ) → a < aisles → slice_index result a ≡ chosen aisles came.now (class_of end) a }
{
    let mut numbers = [0; 64];
    let mut class = end;
    // Kept: (d) the index tells the cell of `came` too, so that `iter_mut().enumerate().rev()` would still hand it out.
    for aisle in (0..aisles as usize).rev() {
        let number = came[cell(aisle, class)];
        numbers[aisle] = number;
        class = Choice::from(number).class;
    }
    numbers
}
