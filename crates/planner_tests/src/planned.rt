// A list that is planned, and its way, which is held to the checker.
use euler::Walked;
use house::Spot;
use planner::{Lent, plan};
use std::alloc::{AllocError, Global};
use std::process::Abort;
use std::test::Fail;
use walk::{Verdict, check as judge};

pub const STEPS: usize = 25852;

// What the checker reads: the house, the number of picks in two bytes, the picks, and the way.
// Kept: (d) the test writes the claim by its own reading of the format, so that a fault of `text` is not in both.
fn claim(heap: Global, house: &[u8], list: &[u8], way: &[u8]) -> Result<Vec<u8>, AllocError> {
    let [low, high, ..] = (list.len() / 2).to_le_bytes();
    let mut bytes = Vec::from_slice(heap, house)?;
    bytes.extend_from_slice(&[low, high])?;
    bytes.extend_from_slice(list)?;
    bytes.extend_from_slice(way)?;
    Ok(bytes)
}

fn check_tour(
    rt: &impl Abort,
    heap: Global,
    file: &[u8],
    way: &[u8],
    length: u32,
) -> Result<(), Fail> {
    assert!(rt; file.len() >= 3);
    let (house, list) = file.split_at(3);
    let bytes = claim(heap, house, list, way)?;
    assert_eq!(rt; judge(&bytes)?, Verdict::Way(u128::from(length)));
    Ok(())
}

pub fn planned(
    rt: &impl Abort,
    heap: Global,
    file: &[u8],
    steps: &mut [u8; STEPS],
) -> Result<Walked, Fail> {
    let mut memory = Lent {
        picks: &mut [Spot { aisle: 9, depth: 9 }; 512],
        lengths: &mut [9; 448],
        came: &mut [9; 448],
        steps,
        uses: &mut [9; 12926],
    };
    let walked = plan(file, &mut memory)?;
    let n = walked.steps;
    assert!(rt; n <= STEPS);
    check_tour(rt, heap, file, &steps[0..n], walked.length)?;
    Ok(walked)
}
