// The class in which the shortest whole tour ends.
ghost use Rattle.std.specs.Prelude.{◌≡◌, ◌<◌};
ghost use Rattle.partial.specs.Ending.{Shorter, shorter, Ends, ending};
ghost use Rattle.classes.specs.Values.{class_of};

use crate::table::{CELLS, cell};
use classes::Class;

// The one of two classes with the shorter partial tour, the first if they are as long.
// Kept: (c) no method of `Tables`, since an element of an array behind a `&mut` that lies behind a `&` cannot be read.
fn shorter(lengths: &[u32; CELLS], aisle: usize, first: Class, second: Class) -> Class
    requires { aisle < 64 }
    ensures shorter { Shorter lengths.now aisle (class_of first) (class_of second) (class_of result) }
    ensures chosen { class_of result ≡ shorter lengths.now aisle (class_of first) (class_of second) }
{
    if lengths[cell(aisle, second)] < lengths[cell(aisle, first)] {
        second
    } else {
        first
    }
}

// Of the classes that are whole tours the one with the shortest in the row of an aisle.
pub(crate) fn ending(lengths: &[u32; CELLS], aisle: usize) -> Class
    requires { aisle < 64 }
    ensures ends { Ends lengths.now aisle (class_of result) }
    ensures chosen { class_of result ≡ ending lengths.now aisle }
{
    [
        Class::EvenFront,
        Class::EvenOne,
        Class::EvenBack,
        Class::NothingYet,
    ]
    .iter()
    .fold(Class::Closed, |first, second| {
        shorter(lengths, aisle, first, *second)
    })
}
