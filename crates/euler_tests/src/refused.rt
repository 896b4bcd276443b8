// Memory that is too short, and uses that are too many: refused, and all memory stays as it was.
use crate::case::Stretch::All;
use crate::case::{Answer, Case, FEW_STEPS, FEW_USES, check_cases, tour};
use euler::{Unwalked, walk_uses};
use std::process::Abort;
use std::test::Fail;

#[test]
fn too_many_uses(rt: HostRuntime) -> Result<(), Fail> {
    check_cases(
        &rt,
        &[
            Case([64, 200, 200], &[All(3)], FEW_STEPS),
            Case([64, 200, 200], &[All(255)], FEW_STEPS),
            Case([1, 200, 1], &[All(130)], FEW_STEPS),
        ],
    )
}

// The number and place of a refusal, as README has them.
fn told(answer: Answer) -> Option<(u8, usize)> {
    match answer {
        Err(Unwalked::Refused(refusal)) => Some((refusal.number(), refusal.place())),
        Ok(_) | Err(Unwalked::NotRound) => None,
    }
}

fn check_short(
    rt: &impl Abort,
    uses: &mut [u8],
    steps: &mut [u8],
    wanted: Answer,
) -> Result<(), Fail> {
    let house = house::read(&[1, 2, 1])?.house;
    assert_eq!(rt; walk_uses(house, uses, steps), wanted);
    assert!(rt; uses.iter().all(|&byte| byte == 0));
    assert!(rt; steps.iter().all(|&byte| byte == 9));
    Ok(())
}

#[test]
fn short_memory(rt: HostRuntime) -> Result<(), Fail> {
    assert_eq!(rt; told(FEW_STEPS), Some((9, 2)));
    assert_eq!(rt; told(FEW_USES), Some((9, 3)));
    check_short(&rt, &mut [0; 12925], &mut [9; 25852], FEW_USES)?;
    check_short(&rt, &mut [0; 12926], &mut [9; 25851], FEW_STEPS)?;
    check_short(&rt, &mut [0; 12925], &mut [9; 25851], FEW_STEPS)?;
    check_short(&rt, &mut [0; 0], &mut [9; 0], FEW_STEPS)?;
    check_short(&rt, &mut [0; 0], &mut [9; 25852], FEW_USES)?;
    check_short(&rt, &mut [0; 12926], &mut [9; 25852], tour(0, 0))
}
