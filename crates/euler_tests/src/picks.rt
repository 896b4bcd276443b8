// Uses that are held to a pick list.
use crate::case::Stretch::Lane;
use crate::case::{Answer, FEW_STEPS, NOT_ROUND, Stretch, check_answer, lay, tour};
use crate::lists::walk_list;
use std::process::Abort;
use std::test::Fail;

// A file to plan, the uses, and the answer.
#[derive(Clone, Copy)]
struct Row(&'static [u8], &'static [Stretch], Answer);

fn check_row(rt: &impl Abort, i: usize, row: Row) -> Result<(), Fail> {
    let Row(file, stretches, wanted) = row;
    let house = house::read(file)?.house;
    let mut uses = [0; 13000];
    let mut steps = [9; 26000];
    lay(house, stretches, &mut uses);
    let mut before = uses;
    let answer = walk_list(file, &mut uses, &mut steps);
    assert_eq!(rt; answer, wanted, "row {i}");
    check_answer(rt, house, &mut before, &uses, &steps, wanted)
}

#[test]
fn picks_on_the_way_and_off_it(rt: HostRuntime) -> Result<(), Fail> {
    let rows = [
        Row(&[1, 10, 3], &[], tour(0, 0)),
        Row(&[1, 10, 3, 0, 4], &[Lane(0, 0, 4, 2)], tour(8, 8)),
        Row(&[1, 10, 3, 0, 4, 0, 1], &[Lane(0, 0, 4, 2)], tour(8, 8)),
        Row(&[1, 10, 3, 0, 5], &[Lane(0, 0, 4, 2)], NOT_ROUND),
        Row(&[1, 10, 3, 0, 4, 0, 9], &[Lane(0, 0, 4, 2)], NOT_ROUND),
        Row(&[1, 10, 3, 0, 4], &[], NOT_ROUND),
        Row(&[1, 10, 3, 0, 4], &[Lane(0, 0, 4, 1)], NOT_ROUND),
        Row(
            &[1, 10, 3, 0, 7],
            &[Lane(0, 0, 4, 2), Lane(0, 6, 8, 2)],
            NOT_ROUND,
        ),
        Row(
            &[2, 10, 3, 1, 5],
            &[Stretch::Front(0, 2), Lane(1, 0, 5, 2)],
            tour(12, 16),
        ),
        Row(&[1, 200, 1, 0, 4], &[Lane(0, 0, 200, 130)], FEW_STEPS),
    ];
    for (i, row) in rows.iter().enumerate() {
        check_row(&rt, i, *row)?;
    }
    Ok(())
}
