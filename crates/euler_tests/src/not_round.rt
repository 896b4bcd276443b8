// Uses that no tour has: they are told, and all memory stays as it was.
use crate::case::Stretch::{All, Back, Front, Lane};
use crate::case::{Case, NOT_ROUND, check_cases};
use std::test::Fail;

#[test]
fn an_odd_spot(rt: HostRuntime) -> Result<(), Fail> {
    check_cases(
        &rt,
        &[
            Case([1, 10, 3], &[Lane(0, 0, 4, 1)], NOT_ROUND),
            Case([1, 10, 3], &[Lane(0, 0, 4, 2), Lane(0, 4, 5, 1)], NOT_ROUND),
            Case([1, 10, 3], &[Lane(0, 0, 4, 3), Lane(0, 4, 9, 2)], NOT_ROUND),
            Case(
                [2, 10, 3],
                &[
                    Lane(0, 0, 10, 1),
                    Back(0, 1),
                    Lane(1, 0, 10, 1),
                    Front(0, 2),
                ],
                NOT_ROUND,
            ),
            Case([2, 10, 3], &[Back(0, 1)], NOT_ROUND),
            Case([3, 2, 1], &[All(1)], NOT_ROUND),
        ],
    )
}

#[test]
fn two_pieces(rt: HostRuntime) -> Result<(), Fail> {
    check_cases(
        &rt,
        &[
            Case([3, 6, 5], &[Lane(0, 0, 3, 2), Lane(2, 0, 3, 2)], NOT_ROUND),
            Case([1, 10, 3], &[Lane(0, 0, 4, 2), Lane(0, 5, 9, 2)], NOT_ROUND),
            Case(
                [4, 6, 1],
                &[
                    Front(0, 2),
                    Lane(2, 0, 6, 1),
                    Lane(3, 0, 6, 1),
                    Front(2, 1),
                    Back(2, 1),
                ],
                NOT_ROUND,
            ),
        ],
    )
}

#[test]
fn not_at_the_desk(rt: HostRuntime) -> Result<(), Fail> {
    check_cases(
        &rt,
        &[
            Case([1, 10, 3], &[Lane(0, 3, 5, 2)], NOT_ROUND),
            Case([2, 10, 3], &[Back(0, 2)], NOT_ROUND),
            Case(
                [3, 4, 2],
                &[Lane(1, 0, 4, 1), Lane(2, 0, 4, 1), Front(1, 1), Back(1, 1)],
                NOT_ROUND,
            ),
            Case([64, 200, 200], &[Lane(63, 0, 200, 2)], NOT_ROUND),
        ],
    )
}
