// The bounds of the first three bytes and of a pick, all combinations of them, in both sorts of file.
use crate::answer::Answer::{Accepted, Refused};
use crate::answer::{Answer, answer_to_claim, answer_to_plan};
use std::process::Abort;

// A byte, and whether it lies within its bounds.
struct Byte(u8, bool);

const AISLES: [Byte; 8] = [
    Byte(0, false),
    Byte(1, true),
    Byte(2, true),
    Byte(63, true),
    Byte(64, true),
    Byte(65, false),
    Byte(128, false),
    Byte(255, false),
];

const DEEP: [Byte; 8] = [
    Byte(0, false),
    Byte(1, false),
    Byte(2, true),
    Byte(3, true),
    Byte(199, true),
    Byte(200, true),
    Byte(201, false),
    Byte(255, false),
];

const APART: [Byte; 7] = [
    Byte(0, false),
    Byte(1, true),
    Byte(2, true),
    Byte(199, true),
    Byte(200, true),
    Byte(201, false),
    Byte(255, false),
];

// The first byte that is out of its bounds decides, whatever those after it are.
fn wanted(aisles: &Byte, deep: &Byte, apart: &Byte) -> Answer {
    match (aisles.1, deep.1, apart.1) {
        (false, _, _) => Refused(1, 0),
        (true, false, _) => Refused(2, 1),
        (true, true, false) => Refused(3, 2),
        (true, true, true) => Accepted(aisles.0, deep.0, apart.0),
    }
}

// A file to plan and a claim, each with one pick, have the same answer.
fn check_pick(rt: &impl Abort, house: (u8, u8, u8), pick: (u8, u8), want: Answer) {
    let (aisles, deep, apart) = house;
    let (aisle, depth) = pick;
    let plan = [aisles, deep, apart, aisle, depth];
    assert_eq!(rt; answer_to_plan(&plan), want, "plan {plan:?}");
    let claim = [aisles, deep, apart, 1, 0, aisle, depth];
    assert_eq!(rt; answer_to_claim(&claim), want, "claim {claim:?}");
}

// The pick at depth 1 of the first aisle is in every house, so that no list is at fault here.
fn check_house(rt: &impl Abort, aisles: &Byte, deep: &Byte, apart: &Byte) {
    let want = wanted(aisles, deep, apart);
    check_pick(rt, (aisles.0, deep.0, apart.0), (0, 1), want);
}

#[test]
fn houses_within_and_beyond_their_bounds(rt: HostRuntime) {
    for aisles in &AISLES {
        for deep in &DEEP {
            for apart in &APART {
                check_house(&rt, aisles, deep, apart);
            }
        }
    }
}

// Houses whose bounds differ from one another, so that no bound stands in for another.
const HOUSES: [(u8, u8, u8); 5] = [
    (1, 2, 1),
    (3, 10, 2),
    (64, 200, 200),
    (64, 2, 1),
    (1, 200, 100),
];

fn wanted_at(house: (u8, u8, u8), aisle: u8, depth: u8) -> Answer {
    let (aisles, deep, apart) = house;
    if aisle >= aisles {
        Refused(5, 0)
    } else if depth == 0 || depth >= deep {
        Refused(6, 0)
    } else {
        Accepted(aisles, deep, apart)
    }
}

#[test]
fn every_pick_of_a_few_houses(rt: HostRuntime) {
    for house in &HOUSES {
        for aisle in 0..=255 {
            for depth in 0..=255 {
                let want = wanted_at(*house, aisle, depth);
                check_pick(&rt, *house, (aisle, depth), want);
            }
        }
    }
}
