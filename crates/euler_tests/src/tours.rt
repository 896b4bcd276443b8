// Uses that are round.
use crate::case::Stretch::{All, Back, Front, Lane};
use crate::case::{Case, check_cases, tour};
use std::test::Fail;

// The uses of shortest tours.
#[test]
fn shortest(rt: HostRuntime) -> Result<(), Fail> {
    check_cases(
        &rt,
        &[
            Case([1, 10, 3], &[], tour(0, 0)),
            Case([1, 10, 3], &[Lane(0, 0, 4, 2)], tour(8, 8)),
            Case(
                [2, 10, 3],
                &[
                    Lane(0, 0, 10, 1),
                    Back(0, 1),
                    Lane(1, 0, 10, 1),
                    Front(0, 1),
                ],
                tour(22, 26),
            ),
            Case(
                [3, 10, 2],
                &[
                    Lane(0, 0, 10, 1),
                    Back(0, 1),
                    Back(1, 1),
                    Lane(2, 0, 10, 1),
                    Front(1, 1),
                    Front(0, 1),
                ],
                tour(24, 28),
            ),
            Case(
                [3, 6, 5],
                &[
                    Lane(0, 0, 3, 2),
                    Lane(1, 0, 3, 2),
                    Lane(2, 0, 3, 2),
                    Front(0, 2),
                    Front(1, 2),
                ],
                tour(22, 38),
            ),
            Case(
                [4, 12, 3],
                &[
                    Lane(0, 0, 12, 1),
                    Back(0, 1),
                    Lane(1, 6, 12, 2),
                    Back(1, 1),
                    Back(2, 1),
                    Lane(3, 0, 12, 1),
                    Front(2, 1),
                    Lane(2, 0, 1, 2),
                    Front(1, 1),
                    Front(0, 1),
                ],
                tour(44, 56),
            ),
        ],
    )
}

// Closed walks that are put together at a spot.
#[test]
fn joined(rt: HostRuntime) -> Result<(), Fail> {
    check_cases(
        &rt,
        &[
            // two rings that share an aisle
            Case(
                [3, 4, 2],
                &[
                    Lane(0, 0, 4, 1),
                    Lane(1, 0, 4, 2),
                    Lane(2, 0, 4, 1),
                    Front(0, 1),
                    Front(1, 1),
                    Back(0, 1),
                    Back(1, 1),
                ],
                tour(20, 24),
            ),
            // a ring at the end of the front way
            Case(
                [4, 6, 1],
                &[
                    Front(0, 2),
                    Front(1, 2),
                    Lane(2, 0, 6, 1),
                    Lane(3, 0, 6, 1),
                    Front(2, 1),
                    Back(2, 1),
                ],
                tour(18, 18),
            ),
            // stretches that are gone into and come back from, at every end
            Case(
                [3, 5, 2],
                &[
                    Front(0, 2),
                    Front(1, 2),
                    Back(0, 2),
                    Lane(0, 0, 5, 2),
                    Lane(1, 0, 2, 2),
                    Lane(1, 3, 5, 4),
                    Lane(2, 0, 1, 2),
                ],
                tour(30, 36),
            ),
            Case([2, 2, 1], &[All(1)], tour(6, 6)),
            Case([1, 2, 1], &[Lane(0, 0, 2, 254)], tour(508, 508)),
            Case([2, 5, 3], &[All(4)], tour(48, 64)),
        ],
    )
}

// Everything is used twice, up to as many steps as there can be; and a few often.
#[test]
fn all_of_it(rt: HostRuntime) -> Result<(), Fail> {
    check_cases(
        &rt,
        &[
            Case([1, 2, 1], &[All(2)], tour(4, 4)),
            Case([8, 125, 3], &[All(2)], tour(2028, 2084)),
            Case([64, 2, 7], &[All(2)], tour(508, 2020)),
            Case([64, 200, 1], &[All(2)], tour(25852, 25852)),
            Case([64, 200, 200], &[All(2)], tour(25852, 76000)),
            Case([1, 200, 1], &[All(128)], tour(25600, 25600)),
        ],
    )
}
