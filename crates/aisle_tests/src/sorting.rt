// The picks of a list in order of aisle and then depth, in lent memory.
use aisle::{part_end, sort_picks};
use house::{Memory, Refusal, Spot, read};

// What the memory holds before anything is written to it: no house has such a spot.
const OTHER: Spot = Spot {
    aisle: 255,
    depth: 255,
};

fn sort_file(file: &[u8], lent: &mut [Spot]) -> Result<usize, Refusal> {
    sort_picks(read(file)?, lent)
}

// A house, its list, and the picks in order.
struct Row(&'static [u8], &'static [(u8, u8)]);

const ROWS: [Row; 6] = [
    Row(&[1, 2, 1], &[]),
    Row(&[3, 10, 2, 1, 4], &[(1, 4)]),
    // in descending order
    Row(
        &[3, 10, 2, 2, 9, 2, 1, 1, 5, 0, 8, 0, 1],
        &[(0, 1), (0, 8), (1, 5), (2, 1), (2, 9)],
    ),
    // in order
    Row(&[3, 10, 2, 0, 1, 0, 8, 1, 5], &[(0, 1), (0, 8), (1, 5)]),
    // repeats stay
    Row(
        &[3, 10, 2, 1, 5, 0, 8, 1, 5, 0, 8, 1, 5],
        &[(0, 8), (0, 8), (1, 5), (1, 5), (1, 5)],
    ),
    // the aisle comes before the depth
    Row(&[2, 200, 1, 1, 1, 0, 199], &[(0, 199), (1, 1)]),
];

fn entry(want: &[(u8, u8)], i: usize) -> (u8, u8) {
    want.get(i).copied().unwrap_or((255, 255))
}

#[test]
fn lists_in_order(rt: HostRuntime) {
    for Row(file, want) in &ROWS {
        let mut lent = [OTHER; 600];
        assert_eq!(rt; sort_file(file, &mut lent), Ok(want.len()));
        for (i, spot) in lent.iter().enumerate() {
            assert_eq!(rt;
                (spot.aisle, spot.depth),
                entry(want, i),
                "{file:?}, entry {i}"
            );
        }
    }
}

// 512 picks in aisle 1 of two, the deepest first.
fn full_list() -> [u8; 1027] {
    let mut file = [1; 1027];
    file[0] = 2;
    file[1] = 200;
    for i in 0..512 {
        file[4 + 2 * i] = 199 - (i % 199) as u8;
    }
    file
}

#[test]
fn one_aisle_with_512_picks(rt: HostRuntime) {
    let mut lent = [OTHER; 512];
    assert_eq!(rt; sort_file(&full_list(), &mut lent), Ok(512));
    let mut before = 0;
    for (i, spot) in lent.iter().enumerate() {
        assert!(rt; spot.aisle == 1 && before <= spot.depth, "entry {i}");
        before = spot.depth;
    }
    assert_eq!(rt; part_end(&lent, 0, 0), 0);
    assert_eq!(rt; part_end(&lent, 0, 1), 512);
}

// Picks of the aisles 0, 0, 1 and 3.
const IN_ORDER: [Spot; 4] = [
    Spot { aisle: 0, depth: 1 },
    Spot { aisle: 0, depth: 8 },
    Spot { aisle: 1, depth: 5 },
    Spot { aisle: 3, depth: 1 },
];

// A place, an aisle, and where its picks from there on end.
const ENDS: [(usize, u8, usize); 9] = [
    (0, 0, 2),
    (1, 0, 2),
    (2, 0, 2),
    (0, 1, 0),
    (2, 1, 3),
    (3, 2, 3),
    (3, 3, 4),
    (4, 3, 4),
    (9, 0, 9),
];

#[test]
fn ends_of_parts(rt: HostRuntime) {
    for (from, aisle, end) in &ENDS {
        assert_eq!(rt;
            part_end(&IN_ORDER, *from, *aisle),
            *end,
            "aisle {aisle} from {from}"
        );
    }
}

#[test]
fn short_memory_is_refused(rt: HostRuntime) {
    let mut lent = [OTHER; 511];
    let sorted = sort_file(&[3, 10, 2, 1, 4], &mut lent);
    let short = Refusal::Short(Memory::Picks);
    assert_eq!(rt; sorted, Err(short));
    assert_eq!(rt; (short.number(), short.place()), (9, 0));
    assert_eq!(rt; lent, [OTHER; 511]);
}
