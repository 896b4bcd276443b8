// Short claims: their answers, and the lists and ways in them.
use crate::answer::Answer::{Accepted, Refused};
use crate::answer::{Row, answer_to_claim, check_rows};

const CUT_OFF: [Row; 16] = [
    Row(&[], Refused(1, 0)), // no byte at all
    Row(&[0], Refused(1, 0)), // no aisle
    Row(&[65], Refused(1, 0)), // too many aisles before what is missing
    Row(&[3], Refused(2, 1)), // a missing depth reads as 0
    Row(&[3, 1], Refused(2, 1)), // too little depth before what is missing
    Row(&[3, 201], Refused(2, 1)), // too much depth before what is missing
    Row(&[3, 10], Refused(3, 2)), // a missing distance reads as 0
    Row(&[3, 10, 0], Refused(3, 2)), // no distance
    Row(&[3, 10, 2], Refused(4, 0)), // no count
    Row(&[3, 10, 2, 0], Refused(4, 0)), // half a count of 0
    Row(&[3, 10, 2, 1], Refused(4, 0)), // half a count of 1
    Row(&[3, 10, 2, 255], Refused(4, 0)), // half a count of many
    Row(&[65, 10, 2, 0], Refused(1, 0)), // too many aisles and half a count
    Row(&[3, 201, 2, 0], Refused(2, 1)), // too much depth and half a count
    Row(&[3, 10, 201, 0], Refused(3, 2)), // too far apart and half a count
    Row(&[3, 10, 2, 0, 0], Accepted(3, 10, 2)), // no pick and no way
];

const COUNTS: [Row; 23] = [
    Row(&[3, 10, 2, 0, 0, 7], Accepted(3, 10, 2)), // no pick and a way of one byte
    Row(&[3, 10, 2, 0, 0, 9, 9], Accepted(3, 10, 2)), // no pick and a way that would be a bad pick
    Row(&[3, 10, 2, 1, 0], Refused(4, 0)), // one pick, none there
    Row(&[3, 10, 2, 1, 0, 0], Refused(4, 1)), // one pick, half of it there
    Row(&[3, 10, 2, 1, 0, 0, 1], Accepted(3, 10, 2)), // one pick
    Row(&[3, 10, 2, 1, 0, 0, 1, 7], Accepted(3, 10, 2)), // one pick and a way of one byte
    Row(&[3, 10, 2, 1, 0, 0, 1, 255, 0], Accepted(3, 10, 2)), // a way that would be a bad pick
    Row(&[3, 10, 2, 2, 0, 0, 1], Refused(4, 2)), // two picks, one there
    Row(&[3, 10, 2, 2, 0, 0, 1, 2], Refused(4, 3)), // two picks, one byte missing
    Row(&[3, 10, 2, 2, 0, 0, 1, 2, 9], Accepted(3, 10, 2)), // two picks
    Row(&[3, 10, 2, 2, 0, 0, 1, 2, 9, 0, 0, 0], Accepted(3, 10, 2)), // two picks and a way
    Row(&[3, 10, 2, 255, 0, 0, 1], Refused(4, 2)), // 255 picks, one there
    Row(&[3, 10, 2, 0, 1, 0, 1], Refused(4, 2)), // 256 picks and not 1: the low byte is first
    Row(&[3, 10, 2, 0, 1], Refused(4, 0)), // 256 picks, none there
    Row(&[3, 10, 2, 0, 2], Refused(4, 0)), // 512 picks, none there
    Row(&[3, 10, 2, 0, 2, 0, 1], Refused(4, 2)), // 512 picks, one there
    Row(&[3, 10, 2, 1, 2], Refused(4, 0)), // 513 picks, none there
    Row(&[3, 10, 2, 1, 2, 0, 1, 0], Refused(4, 3)), // 513 picks, one and a half there
    Row(&[3, 10, 2, 0, 128], Refused(4, 0)), // 32768 picks, none there
    Row(&[3, 10, 2, 0, 128, 0, 1], Refused(4, 2)), // 32768 picks, one there
    Row(&[3, 10, 2, 1, 128, 0, 1], Refused(4, 2)), // 32769 picks, one there
    Row(&[3, 10, 2, 255, 255], Refused(4, 0)), // 65535 picks, none there
    Row(&[3, 10, 2, 255, 255, 0, 1, 0], Refused(4, 3)), // 65535 picks, one and a half there
];

const PICKS: [Row; 19] = [
    Row(&[3, 10, 2, 1, 0, 2, 1], Accepted(3, 10, 2)), // the last aisle
    Row(&[3, 10, 2, 1, 0, 3, 1], Refused(5, 0)), // the aisle after the last
    Row(&[3, 10, 2, 1, 0, 255, 1], Refused(5, 0)), // the highest aisle
    Row(&[3, 10, 2, 1, 0, 0, 0], Refused(6, 0)), // on the front way
    Row(&[3, 10, 2, 1, 0, 0, 9], Accepted(3, 10, 2)), // the last depth
    Row(&[3, 10, 2, 1, 0, 0, 10], Refused(6, 0)), // on the back way
    Row(&[3, 10, 2, 1, 0, 0, 255], Refused(6, 0)), // far beyond the back way
    Row(&[1, 2, 1, 1, 0, 0, 1], Accepted(1, 2, 1)), // the only pick of the smallest house
    Row(&[64, 200, 200, 1, 0, 63, 199], Accepted(64, 200, 200)), // the last pick of the largest house
    Row(&[3, 10, 2, 3, 0, 1, 5, 1, 5, 1, 5], Accepted(3, 10, 2)), // a pick three times
    Row(&[3, 10, 2, 3, 0, 2, 9, 0, 1, 2, 1, 5], Accepted(3, 10, 2)), // picks in no order, and a way
    Row(&[3, 10, 2, 2, 0, 0, 1, 3, 1], Refused(5, 1)), // a bad aisle last
    Row(&[3, 10, 2, 2, 0, 0, 1, 3, 1, 0, 0], Refused(5, 1)), // a bad aisle before a way
    Row(&[3, 10, 2, 2, 0, 0, 1, 0, 10], Refused(6, 1)), // a bad depth last
    Row(&[3, 10, 2, 2, 0, 0, 1, 0, 0, 3, 1], Refused(6, 1)), // a bad depth before a way that is no pick
    Row(&[3, 10, 2, 3, 0, 0, 1, 3, 1, 255, 1], Refused(5, 1)), // the first of two bad aisles
    Row(&[3, 10, 2, 3, 0, 0, 1, 0, 10, 0, 0], Refused(6, 1)), // too deep before on the front way
    Row(&[3, 10, 2, 3, 0, 0, 1, 0, 0, 0, 10], Refused(6, 1)), // on the front way before too deep
    Row(&[3, 10, 2, 1, 0, 0, 1, 0, 1, 3, 0], Accepted(3, 10, 2)), // only the counted picks are held to the house
];

// The lower number decides wherever the two faults stand.
const TWO_FAULTS: [Row; 23] = [
    Row(&[0, 0, 2, 0, 0], Refused(1, 0)), // 1 and 2, both too low
    Row(&[65, 201, 2, 0, 0], Refused(1, 0)), // 1 and 2, both too high
    Row(&[0, 255, 2, 0, 0], Refused(1, 0)), // 1 and 2, too low and too high
    Row(&[255, 1, 2, 0, 0], Refused(1, 0)), // 1 and 2, too high and too low
    Row(&[3, 0, 0, 0, 0], Refused(2, 1)), // 2 and 3, both too low
    Row(&[3, 201, 201, 0, 0], Refused(2, 1)), // 2 and 3, both too high
    Row(&[3, 1, 255, 0, 0], Refused(2, 1)), // 2 and 3, too low and too high
    Row(&[3, 255, 0, 0, 0], Refused(2, 1)), // 2 and 3, too high and too low
    Row(&[3, 10, 0, 1, 0, 0], Refused(3, 2)), // 3 and 4, too low and half a pick
    Row(&[3, 10, 201, 1, 2], Refused(3, 2)), // 3 and 4, too high and 513 picks
    Row(&[0, 10, 2, 1, 0], Refused(1, 0)), // 1 and 4
    Row(&[0, 10, 2, 1, 0, 0, 1], Refused(1, 0)), // 1 and 5, since no aisle is there
    Row(&[3, 0, 2, 1, 0, 0, 1], Refused(2, 1)), // 2 and 6, since no depth is there
    Row(&[3, 10, 2, 2, 0, 3, 1], Refused(4, 2)), // 4 and 5, a bad aisle before what is missing
    Row(&[3, 10, 2, 2, 0, 0, 1, 3], Refused(4, 3)), // 4 and 5, a bad aisle in half a pick
    Row(&[3, 10, 2, 2, 0, 0, 0], Refused(4, 2)), // 4 and 6
    Row(&[3, 10, 2, 1, 2, 3, 0], Refused(4, 2)), // 4, 5 and 6, of 513 picks
    Row(&[3, 10, 2, 2, 0, 3, 1, 0, 0], Refused(5, 0)), // 5 before 6
    Row(&[3, 10, 2, 2, 0, 0, 0, 3, 1], Refused(5, 1)), // 6 before 5, on the front way
    Row(&[3, 10, 2, 2, 0, 0, 10, 3, 1], Refused(5, 1)), // 6 before 5, too deep
    Row(&[3, 10, 2, 1, 0, 3, 0], Refused(5, 0)), // 5 and 6 in one pick, on the front way
    Row(&[3, 10, 2, 1, 0, 255, 255], Refused(5, 0)), // 5 and 6 in one pick, far out
    Row(&[0, 0, 0, 255, 255], Refused(1, 0)), // everything at fault
];

#[test]
fn answers(rt: HostRuntime) {
    check_rows(&rt, &CUT_OFF, answer_to_claim);
    check_rows(&rt, &COUNTS, answer_to_claim);
    check_rows(&rt, &PICKS, answer_to_claim);
    check_rows(&rt, &TWO_FAULTS, answer_to_claim);
}

// A claim, and the list and the way in it.
struct Parted(&'static [u8], &'static [u8], &'static [u8]);

// The list has twice the count of bytes, or what there is; the way has the rest. A refused file has its parts too.
const PARTS: [Parted; 18] = [
    Parted(&[], &[], &[]),
    Parted(&[3], &[], &[]),
    Parted(&[3, 10], &[], &[]),
    Parted(&[3, 10, 2], &[], &[]),
    Parted(&[3, 10, 2, 1], &[], &[]),
    Parted(&[3, 10, 2, 0, 0], &[], &[]),
    Parted(&[3, 10, 2, 0, 0, 7], &[], &[7]),
    Parted(&[3, 10, 2, 0, 0, 7, 0, 255], &[], &[7, 0, 255]),
    Parted(&[3, 10, 2, 1, 0], &[], &[]),
    Parted(&[3, 10, 2, 1, 0, 4], &[4], &[]),
    Parted(&[3, 10, 2, 1, 0, 4, 5], &[4, 5], &[]),
    Parted(&[3, 10, 2, 1, 0, 4, 5, 6], &[4, 5], &[6]),
    Parted(&[3, 10, 2, 2, 0, 4, 5, 6], &[4, 5, 6], &[]),
    Parted(&[3, 10, 2, 2, 0, 2, 9, 0, 1], &[2, 9, 0, 1], &[]),
    Parted(
        &[3, 10, 2, 2, 0, 2, 9, 0, 1, 0, 5, 3],
        &[2, 9, 0, 1],
        &[0, 5, 3],
    ),
    Parted(&[3, 10, 2, 0, 1, 4, 5, 6], &[4, 5, 6], &[]),
    Parted(&[3, 10, 2, 1, 2, 4, 5], &[4, 5], &[]),
    Parted(&[0, 0, 0, 1, 0, 4, 5, 6, 7], &[4, 5], &[6, 7]),
];

#[test]
fn lists_and_ways(rt: HostRuntime) {
    for Parted(file, list, way) in &PARTS {
        let claim = house::claim_of(file);
        assert_eq!(rt; claim.list, *list, "list of {file:?}");
        assert_eq!(rt; claim.way, *way, "way of {file:?}");
    }
}
