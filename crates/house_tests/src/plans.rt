// Short files to plan: their answers, and the lists that are handed on.
use crate::answer::Answer::{Accepted, Refused};
use crate::answer::{Row, answer_to_plan, check_rows};

const CUT_OFF: [Row; 14] = [
    Row(&[], Refused(1, 0)), // no byte at all
    Row(&[0], Refused(1, 0)), // no aisle
    Row(&[65], Refused(1, 0)), // too many aisles before what is missing
    Row(&[3], Refused(2, 1)), // a missing depth reads as 0
    Row(&[0, 10], Refused(1, 0)), // no aisle before what is missing
    Row(&[3, 1], Refused(2, 1)), // too little depth before what is missing
    Row(&[3, 201], Refused(2, 1)), // too much depth before what is missing
    Row(&[3, 10], Refused(3, 2)), // a missing distance reads as 0
    Row(&[3, 10, 0], Refused(3, 2)), // no distance
    Row(&[3, 10, 2], Accepted(3, 10, 2)), // no list is a list of no pick
    Row(&[3, 10, 2, 0], Refused(4, 1)), // half a pick
    Row(&[3, 10, 2, 255], Refused(4, 1)), // half a pick in no aisle
    Row(&[3, 10, 2, 0, 1], Accepted(3, 10, 2)), // one pick
    Row(&[3, 10, 2, 0, 1, 0], Refused(4, 3)), // a pick and a half
];

const PICKS: [Row; 22] = [
    Row(&[3, 10, 2, 2, 1], Accepted(3, 10, 2)), // the last aisle
    Row(&[3, 10, 2, 3, 1], Refused(5, 0)), // the aisle after the last
    Row(&[3, 10, 2, 255, 1], Refused(5, 0)), // the highest aisle
    Row(&[3, 10, 2, 9, 1], Refused(5, 0)), // an aisle is held to the aisles, not to the depth
    Row(&[3, 10, 2, 0, 0], Refused(6, 0)), // on the front way
    Row(&[3, 10, 2, 0, 9], Accepted(3, 10, 2)), // the last depth
    Row(&[3, 10, 2, 0, 10], Refused(6, 0)), // on the back way
    Row(&[3, 10, 2, 0, 11], Refused(6, 0)), // beyond the back way
    Row(&[3, 10, 2, 0, 255], Refused(6, 0)), // far beyond the back way
    Row(&[1, 2, 1, 0, 1], Accepted(1, 2, 1)), // the only pick of the smallest house
    Row(&[64, 200, 200, 63, 199], Accepted(64, 200, 200)), // the last pick of the largest house
    Row(&[64, 200, 200, 64, 199], Refused(5, 0)), // beside the largest house
    Row(&[64, 200, 200, 63, 200], Refused(6, 0)), // behind the largest house
    Row(&[3, 10, 2, 1, 5, 1, 5, 1, 5], Accepted(3, 10, 2)), // a pick three times
    Row(&[3, 10, 2, 2, 9, 0, 1, 2, 1], Accepted(3, 10, 2)), // picks in no order
    Row(&[3, 10, 2, 0, 1, 3, 1, 0, 1], Refused(5, 1)), // a bad aisle between good picks
    Row(&[3, 10, 2, 0, 1, 1, 1, 3, 1], Refused(5, 2)), // a bad aisle last
    Row(&[3, 10, 2, 0, 1, 0, 10, 0, 1], Refused(6, 1)), // a bad depth between good picks
    Row(&[3, 10, 2, 0, 1, 1, 1, 0, 0], Refused(6, 2)), // a bad depth last
    Row(&[3, 10, 2, 0, 1, 3, 1, 255, 1], Refused(5, 1)), // the first of two bad aisles
    Row(&[3, 10, 2, 0, 1, 0, 10, 0, 0], Refused(6, 1)), // too deep before on the front way
    Row(&[3, 10, 2, 0, 1, 0, 0, 0, 10], Refused(6, 1)), // on the front way before too deep
];

// The lower number decides wherever the two faults stand.
const TWO_FAULTS: [Row; 24] = [
    Row(&[0, 0, 2], Refused(1, 0)), // 1 and 2, both too low
    Row(&[65, 201, 2], Refused(1, 0)), // 1 and 2, both too high
    Row(&[0, 201, 2], Refused(1, 0)), // 1 and 2, too low and too high
    Row(&[255, 1, 2], Refused(1, 0)), // 1 and 2, too high and too low
    Row(&[0, 10, 0], Refused(1, 0)), // 1 and 3
    Row(&[3, 1, 0], Refused(2, 1)), // 2 and 3, both too low
    Row(&[3, 201, 201], Refused(2, 1)), // 2 and 3, both too high
    Row(&[3, 1, 201], Refused(2, 1)), // 2 and 3, too low and too high
    Row(&[3, 255, 0], Refused(2, 1)), // 2 and 3, too high and too low
    Row(&[3, 10, 0, 0], Refused(3, 2)), // 3 and 4, too low and half a pick
    Row(&[3, 10, 201, 0, 1, 0], Refused(3, 2)), // 3 and 4, too high and a pick and a half
    Row(&[0, 10, 2, 0], Refused(1, 0)), // 1 and 4
    Row(&[0, 10, 2, 0, 1], Refused(1, 0)), // 1 and 5, since no aisle is there
    Row(&[3, 0, 2, 0, 1], Refused(2, 1)), // 2 and 6, since no depth is there
    Row(&[3, 10, 2, 3, 1, 0], Refused(4, 3)), // 4 and 5, a bad aisle before the half pick
    Row(&[3, 10, 2, 0, 1, 3], Refused(4, 3)), // 4 and 5, a bad aisle in the half pick
    Row(&[3, 10, 2, 0, 0, 0], Refused(4, 3)), // 4 and 6
    Row(&[3, 10, 2, 3, 1, 0, 0], Refused(5, 0)), // 5 before 6
    Row(&[3, 10, 2, 0, 0, 3, 1], Refused(5, 1)), // 6 before 5, on the front way
    Row(&[3, 10, 2, 0, 10, 3, 1], Refused(5, 1)), // 6 before 5, too deep
    Row(&[3, 10, 2, 3, 0], Refused(5, 0)), // 5 and 6 in one pick, on the front way
    Row(&[3, 10, 2, 255, 255], Refused(5, 0)), // 5 and 6 in one pick, far out
    Row(&[3, 10, 2, 0, 0, 0, 1, 2, 9, 3, 1], Refused(5, 3)), // 6 long before 5
    Row(&[0, 0, 0, 0], Refused(1, 0)), // everything at fault
];

#[test]
fn answers(rt: HostRuntime) {
    check_rows(&rt, &CUT_OFF, answer_to_plan);
    check_rows(&rt, &PICKS, answer_to_plan);
    check_rows(&rt, &TWO_FAULTS, answer_to_plan);
}

// A file and the list in it.
struct Listed(&'static [u8], &'static [u8]);

// The list is what follows the first three bytes, whether or not the file is refused.
const LISTS: [Listed; 11] = [
    Listed(&[], &[]),
    Listed(&[3], &[]),
    Listed(&[3, 10], &[]),
    Listed(&[3, 10, 2], &[]),
    Listed(&[3, 10, 2, 0], &[0]),
    Listed(&[3, 10, 2, 0, 1], &[0, 1]),
    Listed(&[3, 10, 2, 2, 9, 0, 1, 2, 9], &[2, 9, 0, 1, 2, 9]),
    Listed(&[3, 10, 2, 0, 1, 0], &[0, 1, 0]),
    Listed(&[3, 10, 2, 255, 0], &[255, 0]),
    Listed(&[0, 0, 0, 7, 8], &[7, 8]),
    Listed(&[64, 200, 200, 63, 199, 0, 1], &[63, 199, 0, 1]),
];

#[test]
fn lists(rt: HostRuntime) {
    for Listed(file, list) in &LISTS {
        assert_eq!(rt; house::list_of(file), *list, "file {file:?}");
    }
}
