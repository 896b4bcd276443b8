// Claims: their bytes, and what the checker says of them.
use std::alloc::{AllocError, Global};
use std::test::Fail;
use text::claim;

// A number of picks, and its two bytes.
const COUNTS: [(usize, [u8; 2]); 7] = [
    (0, [0, 0]),
    (1, [1, 0]),
    (2, [2, 0]),
    (255, [255, 0]),
    (256, [0, 1]),
    (257, [1, 1]),
    (512, [0, 2]),
];

const HOUSE: [u8; 3] = [1, 10, 3];

const WAY: [u8; 2] = [0, 1];

// A row of bytes, and then so many picks at depth 1 of the only aisle.
fn with_picks(heap: Global, first: &[u8], picks: usize) -> Result<Vec<u8>, AllocError> {
    let mut bytes = Vec::from_slice(heap, first)?;
    for _ in 0..picks {
        bytes.extend_from_slice(&[0, 1])?;
    }
    Ok(bytes)
}

#[test]
fn claims_of_many_sizes(rt: HostRuntime) -> Result<(), Fail> {
    for (picks, count) in &COUNTS {
        let file = with_picks(rt.alloc(), &HOUSE, *picks)?;
        let claimed = claim(rt.alloc(), file.as_slice(), &WAY)?;
        let [low, high] = *count;
        let mut want = with_picks(rt.alloc(), &[1, 10, 3, low, high], *picks)?;
        want.extend_from_slice(&WAY)?;
        assert_eq!(rt; claimed.as_slice(), want.as_slice());
        let verdict = walk::check(&claimed)?;
        let told = format!(in rt.alloc(); "{verdict}")?;
        assert_eq!(rt; told.as_str(), "way of length 2");
    }
    Ok(())
}

// A file and a way that no plan comes to, and their claim.
struct Odd(&'static [u8], &'static [u8], &'static [u8]);

const ODD: [Odd; 5] = [
    Odd(&[], &[], &[0, 0]),
    Odd(&[7], &[9], &[7, 0, 0, 9]),
    Odd(&[1, 10], &[0], &[1, 10, 0, 0, 0]),
    // half a pick is not counted
    Odd(&[1, 10, 3, 5], &[], &[1, 10, 3, 0, 0, 5]),
    Odd(&[1, 10, 3, 0, 1, 5], &[6], &[1, 10, 3, 1, 0, 0, 1, 5, 6]),
];

#[test]
fn claims_of_odd_files(rt: HostRuntime) -> Result<(), Fail> {
    for Odd(file, way, want) in &ODD {
        let claimed = claim(rt.alloc(), file, way)?;
        assert_eq!(rt; claimed.as_slice(), *want);
    }
    Ok(())
}
