// Uses and their answer, and what memory must hold after it.
use euler::{Unwalked, Walked, walk_uses};
use house::{House, Memory, Refusal, Spot};
use std::process::Abort;
use std::test::Fail;
use uses::look;
use walk::{Step, measure};

#[derive(Clone, Copy)]
pub enum Stretch {
    // in an aisle, the steps from one depth to another, and how often each is used
    Lane(u8, u8, u8, u8),
    // the passages from an aisle to the next, and how often each is used
    Front(u8, u8),
    Back(u8, u8),
    // everything, so often
    All(u8),
}

pub type Answer = Result<Walked, Unwalked>;

pub const NOT_ROUND: Answer = Err(Unwalked::NotRound);

pub const FEW_STEPS: Answer = Err(Unwalked::Refused(Refusal::Short(Memory::Steps)));

pub const FEW_USES: Answer = Err(Unwalked::Refused(Refusal::Short(Memory::Uses)));

// So many steps, and the length.
pub fn tour(steps: usize, length: u32) -> Answer {
    Ok(Walked { steps, length })
}

// The number of aisles, their depth and their distance; the uses; the answer.
#[derive(Clone, Copy)]
pub struct Case(pub [u8; 3], pub &'static [Stretch], pub Answer);

// How many places a house takes, by the test's own reading, so that a fault of `uses::layout` is not in both.
fn places(house: House) -> usize {
    house.aisles as usize * house.deep as usize + 2 * (house.aisles as usize - 1)
}

fn put(uses: &mut [u8], place: usize, times: u8) {
    if place < uses.len() {
        uses[place] = times;
    }
}

// So often everything in the house.
fn put_all(house: House, uses: &mut [u8], times: u8) {
    let end = places(house).min(uses.len());
    uses[..end].fill(times);
}

pub fn lay(house: House, stretches: &[Stretch], uses: &mut [u8]) {
    let lanes = house.aisles as usize * house.deep as usize;
    for stretch in stretches {
        match *stretch {
            Stretch::Lane(aisle, from, to, times) => {
                for depth in from..to {
                    let place = aisle as usize * house.deep as usize + depth as usize;
                    put(uses, place, times);
                }
            }
            Stretch::Front(aisle, times) => put(uses, lanes + aisle as usize, times),
            Stretch::Back(aisle, times) => {
                let place = lanes + (house.aisles as usize - 1) + aisle as usize;
                put(uses, place, times);
            }
            Stretch::All(times) => put_all(house, uses, times),
        }
    }
}

// Takes each step of a way from the uses, and says where it ends.
fn used_up(rt: &impl Abort, house: House, way: &[u8], uses: &mut [u8]) -> Result<Spot, Fail> {
    let mut at = Spot { aisle: 0, depth: 0 };
    for byte in way {
        let step = Step::try_from(*byte)?;
        let Some((entry, to)) = look(house, at, step) else {
            return Err(Fail::new(format_args!("leads out: {byte}")));
        };
        if entry < uses.len() {
            assert!(rt; uses[entry] > 0);
            uses[entry] = uses[entry].saturating_sub(1);
        }
        at = to;
    }
    Ok(at)
}

fn check_same(rt: &impl Abort, found: &[u8], wanted: &[u8]) {
    assert_eq!(rt; found, wanted);
}

// The first bytes are a way that ends at the desk, uses everything and is so long; the rest is as it was.
fn check_tour(
    rt: &impl Abort,
    house: House,
    before: &mut [u8],
    steps: &[u8],
    walked: Walked,
) -> Result<(), Fail> {
    if walked.steps > steps.len() {
        return Err(Fail::new(format_args!("{} steps", walked.steps)));
    }
    let (way, rest) = steps.split_at(walked.steps);
    assert_eq!(rt; measure(house, way), u128::from(walked.length));
    let end = used_up(rt, house, way, before)?;
    assert_eq!(rt; (end.aisle, end.depth), (0, 0));
    assert!(rt; rest.iter().all(|&byte| byte == 9));
    Ok(())
}

// What memory holds after an answer, where the uses were `before` and the steps 9.
pub fn check_answer(
    rt: &impl Abort,
    house: House,
    before: &mut [u8],
    uses: &[u8],
    steps: &[u8],
    wanted: Answer,
) -> Result<(), Fail> {
    match wanted {
        Ok(walked) => check_tour(rt, house, before, steps, walked)?,
        Err(_) => check_same(rt, steps, &[9; 26000]),
    }
    check_same(rt, uses, before);
    Ok(())
}

pub fn check_case(rt: &impl Abort, i: usize, case: Case) -> Result<(), Fail> {
    let Case([aisles, deep, apart], stretches, wanted) = case;
    let house = house::read(&[aisles, deep, apart])?.house;
    let mut uses = [7; 13000];
    let mut steps = [9; 26000];
    // no use in the house, and 7 beyond
    put_all(house, &mut uses, 0);
    lay(house, stretches, &mut uses);
    let mut before = uses;
    let answer = walk_uses(house, &mut uses, &mut steps);
    assert_eq!(rt; answer, wanted, "case {i}");
    check_answer(rt, house, &mut before, &uses, &steps, wanted)
}

pub fn check_cases(rt: &impl Abort, cases: &[Case]) -> Result<(), Fail> {
    for (i, case) in cases.iter().enumerate() {
        check_case(rt, i, *case)?;
    }
    Ok(())
}
