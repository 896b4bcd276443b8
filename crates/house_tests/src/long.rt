// Files with about as many picks as a list may have, and with more.
use crate::answer::Answer::{Accepted, Refused};
use crate::answer::{Answer, answer_to_claim, answer_to_plan};
use std::alloc::AllocError;
use std::test::Fail;

// The aisle and the depth that the pick of this number has, in place of good ones.
struct Bad(usize, u8, u8);

// A file to plan: what it begins with, the bytes of its list, the bad picks among them, and its answer.
struct Plan(&'static [u8], usize, &'static [Bad], Answer);

const HOUSE: &[u8] = &[64, 200, 1];

const PLANS: [Plan; 24] = [
    Plan(HOUSE, 510, &[], Accepted(64, 200, 1)),
    Plan(HOUSE, 512, &[], Accepted(64, 200, 1)),
    Plan(HOUSE, 1022, &[], Accepted(64, 200, 1)),
    Plan(HOUSE, 1023, &[], Refused(4, 1023)),
    // 512 picks are the most
    Plan(HOUSE, 1024, &[], Accepted(64, 200, 1)),
    Plan(HOUSE, 1025, &[], Refused(4, 1025)),
    Plan(HOUSE, 1026, &[], Refused(4, 1026)),
    Plan(HOUSE, 1027, &[], Refused(4, 1027)),
    Plan(HOUSE, 65536, &[], Refused(4, 65536)),
    // more picks than two bytes count
    Plan(HOUSE, 131072, &[], Refused(4, 131072)),
    Plan(HOUSE, 131074, &[], Refused(4, 131074)),
    // the last pick counts
    Plan(HOUSE, 1024, &[Bad(511, 64, 1)], Refused(5, 511)),
    Plan(HOUSE, 1024, &[Bad(511, 0, 0)], Refused(6, 511)),
    Plan(HOUSE, 1024, &[Bad(511, 0, 200)], Refused(6, 511)),
    Plan(HOUSE, 1024, &[Bad(511, 64, 0)], Refused(5, 511)),
    // a place past 255
    Plan(
        HOUSE,
        1024,
        &[Bad(256, 255, 1), Bad(511, 64, 1)],
        Refused(5, 256),
    ),
    Plan(
        HOUSE,
        1024,
        &[Bad(257, 0, 0), Bad(511, 0, 200)],
        Refused(6, 257),
    ),
    // every aisle before any depth
    Plan(
        HOUSE,
        1024,
        &[Bad(0, 0, 0), Bad(511, 64, 1)],
        Refused(5, 511),
    ),
    Plan(HOUSE, 1024, &[Bad(0, 64, 1), Bad(511, 0, 0)], Refused(5, 0)),
    // the length before any pick
    Plan(HOUSE, 1026, &[Bad(0, 64, 1)], Refused(4, 1026)),
    Plan(HOUSE, 1026, &[Bad(512, 64, 1)], Refused(4, 1026)),
    Plan(HOUSE, 1026, &[Bad(0, 0, 0)], Refused(4, 1026)),
    Plan(HOUSE, 1025, &[Bad(0, 64, 0)], Refused(4, 1025)),
    Plan(&[64, 200, 0], 1026, &[Bad(0, 64, 0)], Refused(3, 2)),
];

// A claim: what it begins with, its count last, the bytes of its list and of its way, the bad picks, and its answer.
struct Claimed(&'static [u8], usize, usize, &'static [Bad], Answer);

const COUNT_255: &[u8] = &[64, 200, 1, 255, 0];

const COUNT_256: &[u8] = &[64, 200, 1, 0, 1];

const COUNT_511: &[u8] = &[64, 200, 1, 255, 1];

const COUNT_512: &[u8] = &[64, 200, 1, 0, 2];

const COUNT_513: &[u8] = &[64, 200, 1, 1, 2];

const COUNT_MOST: &[u8] = &[64, 200, 1, 255, 255];

const CLAIMS: [Claimed; 33] = [
    Claimed(COUNT_255, 510, 1, &[], Accepted(64, 200, 1)),
    Claimed(COUNT_256, 511, 0, &[], Refused(4, 511)),
    Claimed(COUNT_256, 512, 0, &[], Accepted(64, 200, 1)),
    Claimed(COUNT_511, 1022, 0, &[], Accepted(64, 200, 1)),
    Claimed(COUNT_511, 1022, 2, &[], Accepted(64, 200, 1)),
    // 512 picks, but for their last byte, and with all
    Claimed(COUNT_512, 1023, 0, &[], Refused(4, 1023)),
    Claimed(COUNT_512, 1024, 0, &[], Accepted(64, 200, 1)),
    Claimed(COUNT_512, 1024, 1, &[], Accepted(64, 200, 1)),
    // a way may be longer than a list
    Claimed(COUNT_512, 1024, 70000, &[], Accepted(64, 200, 1)),
    Claimed(COUNT_255, 510, 1000, &[], Accepted(64, 200, 1)),
    // 513 picks are too many, however many of them are there
    Claimed(COUNT_513, 1023, 0, &[], Refused(4, 1023)),
    Claimed(COUNT_513, 1024, 0, &[], Refused(4, 1024)),
    Claimed(COUNT_513, 1025, 0, &[], Refused(4, 1025)),
    Claimed(COUNT_513, 1026, 0, &[], Refused(4, 1026)),
    Claimed(COUNT_513, 1026, 1, &[], Refused(4, 1026)),
    Claimed(COUNT_513, 1026, 3000, &[], Refused(4, 1026)),
    Claimed(COUNT_MOST, 65535, 0, &[], Refused(4, 65535)),
    Claimed(COUNT_MOST, 131069, 0, &[], Refused(4, 131069)),
    Claimed(COUNT_MOST, 131070, 0, &[], Refused(4, 131070)),
    Claimed(COUNT_MOST, 131070, 5, &[], Refused(4, 131070)),
    // the last pick counts
    Claimed(COUNT_512, 1024, 0, &[Bad(511, 64, 1)], Refused(5, 511)),
    Claimed(COUNT_512, 1024, 9, &[Bad(511, 0, 0)], Refused(6, 511)),
    Claimed(COUNT_512, 1024, 0, &[Bad(511, 0, 200)], Refused(6, 511)),
    Claimed(COUNT_512, 1024, 9, &[Bad(511, 64, 0)], Refused(5, 511)),
    // the way is not held to the house
    Claimed(COUNT_512, 1024, 2, &[Bad(512, 64, 0)], Accepted(64, 200, 1)),
    Claimed(COUNT_511, 1022, 2, &[Bad(511, 64, 0)], Accepted(64, 200, 1)),
    // every aisle before any depth
    Claimed(
        COUNT_512,
        1024,
        0,
        &[Bad(0, 0, 0), Bad(511, 64, 1)],
        Refused(5, 511),
    ),
    Claimed(
        COUNT_512,
        1024,
        0,
        &[Bad(0, 64, 1), Bad(511, 0, 0)],
        Refused(5, 0),
    ),
    // the count before any pick
    Claimed(COUNT_513, 1026, 0, &[Bad(0, 64, 1)], Refused(4, 1026)),
    Claimed(COUNT_513, 1026, 0, &[Bad(512, 64, 1)], Refused(4, 1026)),
    Claimed(COUNT_513, 1026, 0, &[Bad(0, 0, 0)], Refused(4, 1026)),
    Claimed(COUNT_512, 1023, 0, &[Bad(0, 64, 0)], Refused(4, 1023)),
    Claimed(
        &[64, 200, 0, 1, 2],
        1026,
        0,
        &[Bad(0, 64, 0)],
        Refused(3, 2),
    ),
];

// The aisle and the depth of a pick: good ones unless it is named among the bad.
fn pick(i: usize, bad: &[Bad]) -> (u8, u8) {
    match bad.iter().find(|Bad(at, ..)| *at == i) {
        Some(Bad(_, aisle, depth)) => (*aisle, *depth),
        None => ((i % 64) as u8, (1 + i % 199) as u8),
    }
}

// Adds the bytes from `start` to `end` of a list that goes on and on.
fn add_picks(bytes: &mut Vec<u8>, start: usize, end: usize, bad: &[Bad]) -> Result<(), AllocError> {
    for j in start..end {
        let (aisle, depth) = pick(j / 2, bad);
        bytes.push(if j % 2 == 0 { aisle } else { depth })?;
    }
    Ok(())
}

#[test]
fn plans(rt: HostRuntime) -> Result<(), Fail> {
    for Plan(head, length, bad, want) in &PLANS {
        let mut list = Vec::new(rt.alloc());
        add_picks(&mut list, 0, *length, bad)?;
        let mut file = head.to_vec(rt.alloc())?;
        file.extend_from_slice(&list)?;
        assert_eq!(rt; answer_to_plan(&file), *want, "list of {length}");
        assert_eq!(rt; house::list_of(&file), list.as_slice(), "list of {length}");
    }
    Ok(())
}

#[test]
fn claims(rt: HostRuntime) -> Result<(), Fail> {
    for Claimed(head, length, steps, bad, want) in &CLAIMS {
        let mut list = Vec::new(rt.alloc());
        add_picks(&mut list, 0, *length, bad)?;
        let mut way = Vec::new(rt.alloc());
        add_picks(&mut way, *length, length.saturating_add(*steps), bad)?;
        let mut file = head.to_vec(rt.alloc())?;
        file.extend_from_slice(&list)?;
        file.extend_from_slice(&way)?;
        assert_eq!(rt;
            answer_to_claim(&file),
            *want,
            "{head:?}, list of {length}, way of {steps}"
        );
        let claim = house::claim_of(&file);
        assert_eq!(rt; claim.list, list.as_slice(), "list of {length}");
        assert_eq!(rt; claim.way, way.as_slice(), "way of {steps}");
    }
    Ok(())
}
