// Tests of counting: the uses of shortest ways, what they cost, and that they are round; and what is refused.
#![tactic(auto)]

#[cfg(test)]
mod tests {
    use house::{House, Memory, Refusal, read_claim};
    use std::array;
    use std::process::Abort;
    use std::test::Fail;
    use uses::{Miscount, cost, count, is_round};

    const ROOM: usize = 12926;
    // what every entry holds before counting
    const BEFORE: u8 = 7;

    struct Tour {
        // the house, its picks and a shortest way past them
        claim: &'static [u8],
        length: u32,
        // how many entries the house has
        places: usize,
    }

    const TOURS: [Tour; 5] = [
        Tour {
            claim: &[1, 10, 3, 1, 0, 0, 4, 0, 0, 0, 0, 1, 1, 1, 1],
            length: 8,
            places: 10,
        },
        Tour {
            claim: &[
                2, 10, 3, 2, 0, 0, 9, 1, 9, 0, 0, 0, 0, 0, 0, 0, 0, 0, 0, 4, 1, 1, 1, 1, 1, 1, 1,
                1, 1, 1, 3,
            ],
            length: 26,
            places: 22,
        },
        Tour {
            claim: &[
                3, 10, 2, 3, 0, 0, 1, 0, 9, 2, 5, 0, 0, 0, 0, 0, 0, 0, 0, 0, 0, 4, 4, 1, 1, 1, 1,
                1, 1, 1, 1, 1, 1, 3, 3,
            ],
            length: 28,
            places: 34,
        },
        Tour {
            claim: &[
                3, 6, 5, 3, 0, 0, 3, 1, 3, 2, 3, 0, 0, 0, 1, 1, 1, 2, 0, 0, 0, 1, 1, 1, 2, 0, 0, 0,
                1, 1, 1, 3, 3,
            ],
            length: 38,
            places: 22,
        },
        Tour {
            claim: &[2, 8, 1, 0, 0],
            length: 0,
            places: 18,
        },
    ];

    // Whether uses are round for the house and the picks of a claim.
    fn tell(claim: &[u8], uses: &[u8]) -> Result<bool, Refusal> {
        is_round(read_claim(claim)?.picks, uses)
    }

    fn round(claim: &[u8], uses: &[u8]) -> bool {
        tell(claim, uses) == Ok(true)
    }

    // A shortest way leaves no use out: without one an odd number meets somewhere, and without both uses of a stretch a piece is cut off.
    fn check_each_use(rt: &impl Abort, tour: &Tour, counted: &[u8; ROOM]) {
        let mut uses = *counted;
        for (place, used) in counted.iter().enumerate() {
            if place >= tour.places {
                assert_eq!(rt; *used, BEFORE);
            } else {
                for fewer in 0..*used {
                    uses[place] = fewer;
                    assert!(rt; !round(tour.claim, &uses), "{fewer} at {place}");
                }
                uses[place] = *used;
            }
        }
    }

    fn check_tour(rt: &impl Abort, tour: &Tour) -> Result<(), Fail> {
        let claimed = read_claim(tour.claim)?;
        let house = claimed.picks.house;
        let mut uses = [BEFORE; ROOM];
        count(house, claimed.way, &mut uses)?;
        assert_eq!(rt; cost(house, &uses)?, tour.length);
        assert!(rt; round(tour.claim, &uses), "length {}", tour.length);
        check_each_use(rt, tour, &uses);
        Ok(())
    }

    #[test]
    fn shortest_ways(rt: HostRuntime) -> Result<(), Fail> {
        for tour in &TOURS {
            check_tour(&rt, tour)?;
        }
        Ok(())
    }

    // A house and its picks, how often each stretch from one place to before another is used, what that costs, and whether it is round.
    struct Pieces(&'static [u8], &'static [(usize, usize, u8)], u32, bool);

    // Two aisles, ten steps deep and three apart: the steps of aisle 0 stand from place 0 on, those of aisle 1 from 10 on, the passages at 20 and 21.
    const PIECES: [Pieces; 12] = [
        Pieces(&[2, 10, 3, 0, 0], &[], 0, true),
        Pieces(&[2, 10, 3, 1, 0, 1, 9], &[], 0, false),
        // a piece away from the desk, with no pick and beside a round one
        Pieces(&[2, 10, 3, 0, 0], &[(14, 16, 2)], 4, false),
        Pieces(&[2, 10, 3, 1, 0, 0, 4], &[(0, 4, 2), (6, 8, 2)], 12, false),
        Pieces(&[2, 10, 3, 1, 0, 0, 4], &[(0, 8, 2)], 16, true),
        // to a pick by the front, and cut off from it
        Pieces(
            &[2, 10, 3, 1, 0, 1, 5],
            &[(10, 15, 2), (20, 21, 2)],
            16,
            true,
        ),
        Pieces(&[2, 10, 3, 1, 0, 1, 5], &[(10, 15, 2)], 10, false),
        // to a pick by the back, and cut off from it
        Pieces(
            &[2, 10, 3, 1, 0, 1, 9],
            &[(0, 10, 2), (19, 20, 2), (21, 22, 2)],
            28,
            true,
        ),
        Pieces(
            &[2, 10, 3, 1, 0, 1, 9],
            &[(0, 10, 2), (19, 20, 2)],
            22,
            false,
        ),
        // what is used more than twice counts by whether it is odd
        Pieces(&[2, 10, 3, 1, 0, 0, 1], &[(0, 1, 254)], 254, true),
        Pieces(&[2, 10, 3, 1, 0, 0, 1], &[(0, 1, 255)], 255, false),
        Pieces(&[2, 10, 3, 0, 0], &[(20, 22, 1)], 6, false),
    ];

    fn lay(runs: &[(usize, usize, u8)]) -> [u8; ROOM] {
        let mut uses = [0; ROOM];
        for (from, to, used) in runs {
            if let Some(run) = uses.get_mut(*from..*to) {
                run.fill(*used);
            }
        }
        uses
    }

    #[test]
    fn linked_or_cut_off(rt: HostRuntime) -> Result<(), Fail> {
        for Pieces(claim, runs, length, is) in &PIECES {
            let uses = lay(runs);
            let house = read_claim(claim)?.picks.house;
            assert_eq!(rt; cost(house, &uses)?, *length, "{claim:?}");
            assert_eq!(rt; round(claim, &uses), *is, "{claim:?}, length {length}");
        }
        Ok(())
    }

    const HOUSE: House = House {
        aisles: 2,
        deep: 10,
        apart: 3,
    };

    const TOO_SHORT: Refusal = Refusal::Short(Memory::Uses);

    // A refusal leaves every entry as it was.
    fn check_miscount(rt: &impl Abort, way: &[u8], uses: &mut [u8], why: Miscount) {
        assert_eq!(rt; count(HOUSE, way, uses), Err(why));
        assert!(rt; uses.iter().all(|entry| *entry == BEFORE));
    }

    // A refusal with the number and place that README promises.
    fn check_refused(
        rt: &impl Abort,
        way: &[u8],
        uses: &mut [u8],
        refusal: Refusal,
        told: (u8, usize),
    ) {
        check_miscount(rt, way, uses, Miscount::Refused(refusal));
        assert_eq!(rt; (refusal.number(), refusal.place()), told);
    }

    // A slice without room for any house has no cost, and nothing is told of it.
    fn check_short(rt: &impl Abort, uses: &[u8]) {
        assert_eq!(rt; cost(HOUSE, uses), Err(TOO_SHORT));
        assert_eq!(rt; tell(&[2, 10, 3, 0, 0], uses), Err(TOO_SHORT));
        assert_eq!(rt; (TOO_SHORT.number(), TOO_SHORT.place()), (9, 3));
    }

    #[test]
    fn refusals(rt: HostRuntime) {
        let mut uses = [BEFORE; ROOM];
        check_refused(&rt, &[0, 6, 9], &mut uses, Refusal::NoStep(1), (7, 1));
        check_refused(&rt, &[1, 0, 6], &mut uses, Refusal::NoStep(2), (7, 2));
        check_refused(&rt, &[1, 0], &mut uses, Refusal::LeadsOut(0), (8, 0));
        check_refused(&rt, &[0, 2], &mut uses, Refusal::LeadsOut(1), (8, 1));
        check_refused(&rt, &[2, 2], &mut uses, Refusal::LeadsOut(1), (8, 1));
        check_refused(&rt, &[6], &mut uses[0..ROOM - 1], TOO_SHORT, (9, 3));
        check_refused(&rt, &[], &mut uses[0..0], TOO_SHORT, (9, 3));
    }

    #[test]
    fn short_slices(rt: HostRuntime) {
        check_short(&rt, &[0; 12925]);
        check_short(&rt, &[]);
    }

    // An entry holds 255 uses, and what a later step breaks comes first.
    #[test]
    fn overfull(rt: HostRuntime) {
        // to and fro along one stretch
        let mut way: [u8; 300] = array::from_fn(|i| (i % 2) as u8);
        let mut uses = [BEFORE; ROOM];
        check_miscount(&rt, &way, &mut uses, Miscount::Overfull(255));
        check_miscount(&rt, &way[0..256], &mut uses, Miscount::Overfull(255));
        way[299] = 5;
        check_refused(&rt, &way, &mut uses, Refusal::LeadsOut(299), (8, 299));
        way[298] = 6;
        check_refused(&rt, &way, &mut uses, Refusal::NoStep(298), (7, 298));
        assert_eq!(rt; count(HOUSE, &way[0..255], &mut uses), Ok(()));
        assert_eq!(rt; uses[0], 255);
    }
}
