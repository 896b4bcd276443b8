// The length of a shortest tour, found among all walks. It knows nothing of uses, classes or kinds: a walk is where it ends and which picks it has passed.
use house::House;

// Small houses only: 4 aisles, each with depths 0 to 6, and 5 picks.
const DEPTHS: usize = 7;

const SPOTS: usize = 28;

const STATES: usize = 896;

#[derive(Drop)]
struct Walks {
    house: House,
    // the length of the shortest walk that is found, for each set of picks and each spot; MAX where none is
    reach: [u32; STATES],
    // the picks at each spot, a bit for each pick
    picks: [u8; SPOTS],
}

fn spot(aisle: u8, depth: u8) -> usize {
    aisle as usize * DEPTHS + depth as usize
}

impl Walks {
    fn step(&mut self, set: u8, from: usize, to: usize, length: u8) {
        if from < SPOTS && to < SPOTS {
            let here = set as usize * SPOTS + from;
            let there = ((set | self.picks[to]) & 31) as usize * SPOTS + to;
            if here < STATES {
                let found = self.reach[here].saturating_add(u32::from(length));
                self.reach[there] = found.min(self.reach[there]);
            }
        }
    }

    fn both_ways(&mut self, set: u8, from: usize, to: usize, length: u8) {
        self.step(set, from, to, length);
        self.step(set, to, from, length);
    }

    // All steps within an aisle, and between it and the one before.
    fn steps_of_aisle(&mut self, set: u8, aisle: u8) {
        let House { deep, apart, .. } = self.house;
        if aisle > 0 {
            self.both_ways(set, spot(aisle - 1, 0), spot(aisle, 0), apart);
            self.both_ways(set, spot(aisle - 1, deep), spot(aisle, deep), apart);
        }
        for depth in 0..deep {
            self.both_ways(set, spot(aisle, depth), spot(aisle, depth + 1), 1);
        }
    }

    fn all_steps(&mut self, set: u8) {
        for aisle in 0..self.house.aisles {
            self.steps_of_aisle(set, aisle);
        }
    }

    // Passing no more picks, a shortest walk comes to no spot twice, so that as many turns as there are spots settle a set.
    fn settle(&mut self, set: u8) {
        for _ in 0..SPOTS {
            self.all_steps(set);
        }
    }

    // Gives each pick its bit, and says how many sets of picks there are.
    fn place(&mut self, list: &[u8]) -> u8 {
        let mut sets: u8 = 1;
        // Kept: (d) the test reads the list by itself, so that a fault of `house` is not in both.
        for i in 0..list.len() / 2 {
            let at = spot(list[2 * i], list[2 * i + 1]);
            if at < SPOTS {
                self.picks[at] |= sets;
            }
            sets = sets.saturating_mul(2);
        }
        sets
    }
}

// None where the house or its list is too large.
pub fn shortest(house: House, list: &[u8]) -> Option<u32> {
    let mut walks = Walks {
        house,
        reach: [u32::MAX; STATES],
        picks: [0; SPOTS],
    };
    let sets = walks.place(list);
    if house.aisles > 4 || house.deep > 6 || sets > 32 {
        return None;
    }
    walks.reach[0] = 0;
    // a pick that is passed stays passed, so that no step leads to a set with a smaller number
    for set in 0..sets {
        walks.settle(set);
    }
    walks
        .reach
        .get(sets.saturating_sub(1) as usize * SPOTS)
        .copied()
}
