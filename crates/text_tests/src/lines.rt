// The lines of short ways of every sort, and of long runs.
use house::House;
use std::process::Abort;
use std::test::Fail;
use text::{first_piece, way_text};

// A way, and the text that it has where aisles are three steps apart.
struct Told(&'static [u8], &'static str);

const SORTS: [Told; 7] = [
    Told(&[], "length 0\n"),
    Told(&[0], "in 1\nlength 1\n"),
    Told(&[1], "out 1\nlength 1\n"),
    Told(&[2], "next front 1\nlength 3\n"),
    Told(&[3], "before front 1\nlength 3\n"),
    Told(&[4], "next back 1\nlength 3\n"),
    Told(&[5], "before back 1\nlength 3\n"),
];

const TURNS: [Told; 12] = [
    // the way of the first list: in to its only place and out again
    Told(&[0, 0, 0, 0, 1, 1, 1, 1], "in 4\nout 4\nlength 8\n"),
    // turns on the spot
    Told(&[0, 1], "in 1\nout 1\nlength 2\n"),
    Told(&[1, 0], "out 1\nin 1\nlength 2\n"),
    Told(&[0, 1, 0, 1], "in 1\nout 1\nin 1\nout 1\nlength 4\n"),
    Told(&[2, 3], "next front 1\nbefore front 1\nlength 6\n"),
    Told(&[4, 5], "next back 1\nbefore back 1\nlength 6\n"),
    // from one way to the other, and from an aisle onto a way
    Told(&[2, 2, 4], "next front 2\nnext back 1\nlength 9\n"),
    Told(&[3, 5, 5], "before front 1\nbefore back 2\nlength 9\n"),
    Told(
        &[0, 0, 4, 4, 4, 1, 1],
        "in 2\nnext back 3\nout 2\nlength 13\n",
    ),
    // all sorts, up and down
    Told(
        &[0, 1, 2, 3, 4, 5],
        "in 1\nout 1\nnext front 1\nbefore front 1\nnext back 1\nbefore back 1\nlength 14\n",
    ),
    Told(
        &[5, 5, 4, 3, 3, 2, 1, 1, 0],
        "before back 2\nnext back 1\nbefore front 2\nnext front 1\nout 2\nin 1\nlength 21\n",
    ),
    // the same piece twice, with another between
    Told(&[0, 0, 2, 0, 0], "in 2\nnext front 1\nin 2\nlength 7\n"),
];

// A byte that is no step ends the pieces, and has no length.
const STRAYS: [Told; 4] = [
    Told(&[6], "length 0\n"),
    Told(&[255, 0], "length 1\n"),
    Told(&[0, 0, 6], "in 2\nlength 2\n"),
    Told(&[0, 6, 1], "in 1\nlength 2\n"),
];

fn check_told(rt: &(impl Abort + AllocGlobal), rows: &[Told]) -> Result<(), Fail> {
    let house = House {
        aisles: 4,
        deep: 10,
        apart: 3,
    };
    for Told(way, text) in rows {
        let told = way_text(rt.alloc(), house, way)?;
        assert_eq!(rt; told.as_str(), *text, "{way:?}");
    }
    Ok(())
}

#[test]
fn short_ways(rt: HostRuntime) -> Result<(), Fail> {
    check_told(&rt, &SORTS)?;
    check_told(&rt, &TURNS)?;
    check_told(&rt, &STRAYS)
}

// The words for a step, and how long it is.
const WORDS: [(u8, &str, usize); 6] = [
    (0, "in", 1),
    (1, "out", 1),
    (2, "next front", 200),
    (3, "before front", 200),
    (4, "next back", 200),
    (5, "before back", 200),
];

// 25,852 steps, each stretch of the largest house twice, are the most that a plan comes to.
const RUNS: [usize; 9] = [1, 9, 10, 99, 100, 255, 256, 1000, 25852];

fn check_run(
    rt: &(impl Abort + AllocGlobal),
    byte: u8,
    words: &str,
    steps: usize,
    length: usize,
) -> Result<(), Fail> {
    let house = House {
        aisles: 64,
        deep: 200,
        apart: 200,
    };
    let way = vec![in rt.alloc(); byte; steps]?;
    let told = way_text(rt.alloc(), house, way.as_slice())?;
    let want = format!(in rt.alloc(); "{words} {steps}\nlength {length}\n")?;
    assert_eq!(rt; told.as_str(), want.as_str());
    let piece = first_piece(way.as_slice()).ok_or("no piece")?;
    assert_eq!(rt; piece.steps, steps);
    let shown = format!(in rt.alloc(); "{piece}")?;
    let line = format!(in rt.alloc(); "{words} {steps}")?;
    assert_eq!(rt; shown.as_str(), line.as_str());
    Ok(())
}

#[test]
fn long_runs(rt: HostRuntime) -> Result<(), Fail> {
    for (byte, words, length) in &WORDS {
        for steps in &RUNS {
            check_run(&rt, *byte, words, *steps, steps.wrapping_mul(*length))?;
        }
    }
    Ok(())
}
