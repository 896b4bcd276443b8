// The cheapest uses of an aisle for each effect on its ends, and what uses cost.
use aisle::{AisleUse, Effect, Ends, Gap, cheapest_past};
use house::Spot;
use std::process::Abort;
use std::test::Fail;

// What a use leaves out, by two depths; none where no use has the effect.
type LeftOut = Option<(u8, u8)>;

// How deep an aisle is, the depths of its picks, and its uses: not entered, from the front, from the back, from both ends.
struct Row(u8, &'static [u8], LeftOut, LeftOut, LeftOut, LeftOut);

const ROWS: [Row; 13] = [
    // no pick
    Row(10, &[], Some((0, 10)), None, None, None),
    Row(2, &[], Some((0, 2)), None, None, None),
    // one pick
    Row(10, &[4], None, Some((4, 10)), Some((0, 4)), None),
    Row(2, &[1], None, Some((1, 2)), Some((0, 1)), None),
    // next to the two ends only
    Row(10, &[1, 9], None, Some((9, 10)), Some((0, 1)), Some((1, 9))),
    Row(
        200,
        &[1, 199],
        None,
        Some((199, 200)),
        Some((0, 1)),
        Some((1, 199)),
    ),
    // the same depth again and again
    Row(10, &[3, 3, 3], None, Some((3, 10)), Some((0, 3)), None),
    Row(
        10,
        &[3, 3, 7, 7],
        None,
        Some((7, 10)),
        Some((0, 3)),
        Some((3, 7)),
    ),
    // of gaps as wide the first is left out
    Row(
        10,
        &[2, 4, 6, 8],
        None,
        Some((8, 10)),
        Some((0, 2)),
        Some((2, 4)),
    ),
    Row(
        10,
        &[1, 2, 5, 8],
        None,
        Some((8, 10)),
        Some((0, 1)),
        Some((2, 5)),
    ),
    // the widest gap first, in the middle and last
    Row(
        20,
        &[1, 9, 11, 14],
        None,
        Some((14, 20)),
        Some((0, 1)),
        Some((1, 9)),
    ),
    Row(
        20,
        &[2, 4, 11, 14],
        None,
        Some((14, 20)),
        Some((0, 2)),
        Some((4, 11)),
    ),
    // wider gaps next to the ends do not count
    Row(
        200,
        &[90, 91, 93],
        None,
        Some((93, 200)),
        Some((0, 90)),
        Some((91, 93)),
    ),
];

// An effect, its use, and what that does to the two ends.
#[derive(Drop)]
struct Case(Effect, Option<AisleUse>, (u8, u8, bool));

fn check_case(rt: &impl Abort, deep: u8, depths: &[u8], part: &[Spot], case: &Case) {
    let Case(effect, want, ends) = case;
    let found = cheapest_past(deep, part, *effect);
    assert_eq!(rt; found, *want, "{depths:?}");
    let Some(found) = found else {
        return;
    };
    let (front, back, joined) = *ends;
    let want = Ends {
        front,
        back,
        joined,
    };
    assert_eq!(rt; found.ends(deep), want, "{depths:?}");
}

fn leaving(left_out: LeftOut) -> Option<AisleUse> {
    left_out.map(|(lo, hi)| AisleUse::Leaving(Gap { lo, hi }))
}

fn check_row(rt: &impl Abort, part: &[Spot], row: &Row) {
    let Row(deep, depths, unused, front, back, both) = row;
    let cases = [
        Case(Effect::Nothing, leaving(*unused), (0, 0, false)),
        Case(Effect::FromFront, leaving(*front), (2, 0, false)),
        Case(Effect::FromBack, leaving(*back), (0, 2, false)),
        Case(Effect::BothEnds, leaving(*both), (2, 2, false)),
        Case(Effect::ThroughOnce, Some(AisleUse::Once), (1, 1, true)),
        Case(Effect::ThroughTwice, Some(AisleUse::Twice), (2, 2, true)),
    ];
    for case in &cases {
        check_case(rt, *deep, depths, part, case);
    }
}

#[test]
fn cheapest_uses(rt: HostRuntime) -> Result<(), Fail> {
    for row in &ROWS {
        let mut part = Vec::new(rt.alloc());
        for depth in row.1 {
            part.push(Spot {
                aisle: 0,
                depth: *depth,
            })?;
        }
        check_row(&rt, &part, row);
    }
    Ok(())
}

// An aisle with more picks than are written down in a table.
const CROWDED: Row = Row(
    200,
    &[],
    None,
    Some((199, 200)),
    Some((0, 1)),
    Some((170, 199)),
);

// Three picks at each depth from 1 to 170 and two next to the back: the widest gap is the last of many.
#[test]
fn cheapest_uses_past_512_picks(rt: HostRuntime) -> Result<(), Fail> {
    let mut part = Vec::new(rt.alloc());
    for depth in 1..171 {
        for _ in 0..3 {
            part.push(Spot { aisle: 0, depth })?;
        }
    }
    for _ in 0..2 {
        part.push(Spot {
            aisle: 0,
            depth: 199,
        })?;
    }
    assert_eq!(rt; part.len(), 512);
    check_row(&rt, &part, &CROWDED);
    Ok(())
}

// The uses of all steps, one by one.
fn counted(found: AisleUse, deep: u8) -> u16 {
    (0..deep)
        .map(|y| u16::from(found.uses_of_step(y)))
        .fold(0, |total: u16, uses| total.saturating_add(uses))
}

fn check_cost(rt: &impl Abort, found: AisleUse, deep: u8) {
    assert_eq!(rt;
        found.cost(deep),
        counted(found, deep),
        "{found:?}, {deep} deep"
    );
}

#[test]
fn costs_are_the_uses_of_all_steps(rt: HostRuntime) {
    for deep in 0..12 {
        check_cost(&rt, AisleUse::Once, deep);
        check_cost(&rt, AisleUse::Twice, deep);
        for lo in 0..14 {
            for hi in 0..14 {
                check_cost(&rt, AisleUse::Leaving(Gap { lo, hi }), deep);
            }
        }
    }
}
