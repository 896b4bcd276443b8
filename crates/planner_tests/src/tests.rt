// Lengths of shortest tours: of worked lists, and of small houses beside the shortest of all walks. The plans of the small houses have every form.
use crate::forms::Counts;
use crate::houses::Draws;
use crate::planned::{STEPS, planned};
use crate::walks::shortest;
use house::read;
use std::alloc::Global;
use std::process::Abort;
use std::test::Fail;

// How many small houses are drawn.
const HOUSES: u32 = 100_000;

// A file to plan, and the length of a shortest tour.
struct Row(&'static [u8], u32);

const WORKED: [Row; 9] = [
    Row(&[1, 10, 3, 0, 4], 8),
    Row(&[2, 10, 3, 0, 9, 1, 9], 26),
    Row(&[3, 10, 2, 0, 1, 0, 9, 2, 5], 28),
    Row(&[4, 12, 3, 0, 2, 0, 11, 1, 6, 2, 1, 3, 3, 3, 4, 3, 10], 56),
    Row(&[3, 6, 5, 0, 3, 1, 3, 2, 3], 38),
    Row(&[2, 8, 1], 0),
    Row(&[5, 10, 4, 1, 8, 3, 2, 3, 9, 4, 5], 58),
    Row(&[2, 10, 3, 0, 1, 1, 1], 10),
    Row(
        &[4, 10, 3, 0, 5, 1, 1, 1, 5, 1, 9, 2, 1, 2, 5, 2, 9, 3, 5],
        58,
    ),
];

#[test]
fn worked_lists(rt: HostRuntime) -> Result<(), Fail> {
    for Row(file, length) in &WORKED {
        let walked = planned(&rt, rt.alloc(), file, &mut [9; STEPS])?;
        assert_eq!(rt; walked.length, *length, "{file:?}");
    }
    Ok(())
}

fn check_house(
    rt: &impl Abort,
    heap: Global,
    file: &[u8],
    counts: &mut Counts,
) -> Result<(), Fail> {
    let list = read(file)?;
    let mut steps = [9; STEPS];
    let walked = planned(rt, heap, file, &mut steps)?;
    let n = walked.steps;
    assert!(rt; n <= STEPS, "{file:?}");
    assert_eq!(rt;
        Some(walked.length),
        shortest(list.house, list.bytes),
        "{file:?}"
    );
    counts.add_way(list.house, &steps[0..n])
}

#[test]
fn small_houses(rt: HostRuntime) -> Result<(), Fail> {
    let mut draws = Draws { state: 1983 };
    let mut counts = Counts::none();
    for _ in 0..HOUSES {
        let file = draws.list(rt.alloc())?;
        check_house(&rt, rt.alloc(), &file, &mut counts)?;
    }
    counts.check_all_seen(&rt);
    Ok(())
}
