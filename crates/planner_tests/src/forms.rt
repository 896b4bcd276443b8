// What a way is made of, read from its uses alone: the passages between neighbouring aisles, the kind of use of each aisle, and the class of what is used up to it.
use house::House;
use std::process::Abort;
use std::test::Fail;
use uses::count;

// Kept: (d) the test has its own reading of classes and passages, which knows nothing of the planner's.
#[derive(Clone, Copy)]
enum Passage {
    Unused,
    OneEach,
    TwoFront,
    TwoBack,
    TwoEach,
}

#[derive(Clone, Copy)]
enum Kind {
    Unused,
    Once,
    Twice,
    FromFront,
    FromBack,
    FromBoth,
}

#[derive(Clone, Copy)]
enum Class {
    // odd at both ends of the last aisle, which are linked
    Odd,
    // even, and above 0
    EvenBack,
    EvenFront,
    EvenLinked,
    EvenApart,
    NothingYet,
    Closed,
}

// How often each was seen, in the order of its enum.
#[derive(Drop)]
pub struct Counts {
    passages: [u32; 5],
    kinds: [u32; 6],
    classes: [u32; 7],
}

// What is used up to an aisle.
#[derive(Clone, Copy)]
struct Part {
    // how many uses meet at the aisle's front and at its back
    front: u8,
    back: u8,
    // whether these two are linked
    linked: bool,
    // whether anything is used before
    used: bool,
}

fn at(uses: &[u8], place: usize) -> u8 {
    uses.get(place).copied().unwrap_or(0)
}

fn passage_of(front: u8, back: u8) -> Result<Passage, Fail> {
    match (front, back) {
        (0, 0) => Ok(Passage::Unused),
        (1, 1) => Ok(Passage::OneEach),
        (2, 0) => Ok(Passage::TwoFront),
        (0, 2) => Ok(Passage::TwoBack),
        (2, 2) => Ok(Passage::TwoEach),
        _ => Err(Fail::new(format_args!("passages {front} and {back}"))),
    }
}

fn kind_of(lane: &[u8]) -> Result<Kind, Fail> {
    let (Some(first), Some(last), Some(least)) = (lane.first(), lane.last(), lane.iter().min())
    else {
        return Err(Fail::new("an aisle of no step"));
    };
    let steps = lane.iter().zip(lane.iter().skip(1));
    let changes = steps.filter(|(here, next)| here != next).count();
    match (*first, *last, *least, changes) {
        (0, 0, 0, 0) => Ok(Kind::Unused),
        (1, 1, 1, 0) => Ok(Kind::Once),
        (2, 2, 2, 0) => Ok(Kind::Twice),
        (2, 0, 0, 1) => Ok(Kind::FromFront),
        (0, 2, 0, 1) => Ok(Kind::FromBack),
        (2, 2, 0, 2) => Ok(Kind::FromBoth),
        _ => Err(Fail::new(format_args!("an aisle used {lane:?}"))),
    }
}

fn class_of(part: Part) -> Result<Class, Fail> {
    let Part {
        front,
        back,
        linked,
        used,
    } = part;
    match (front, back, front % 2, back % 2) {
        (0, 0, _, _) if used => Ok(Class::Closed),
        (0, 0, _, _) => Ok(Class::NothingYet),
        (0, _, 0, 0) => Ok(Class::EvenBack),
        (_, 0, 0, 0) => Ok(Class::EvenFront),
        (_, _, 0, 0) if linked => Ok(Class::EvenLinked),
        (_, _, 0, 0) => Ok(Class::EvenApart),
        (_, _, 1, 1) if linked => Ok(Class::Odd),
        _ => Err(Fail::new(format_args!("ends {front} and {back}"))),
    }
}

// How often the passages from the aisle before are used, at the front and at the back. To aisle 0 there are none, but the desk counts as two uses at its front.
fn passages_to(house: House, uses: &[u8], aisle: u8) -> (u8, u8) {
    if aisle == 0 {
        return (2, 0);
    }
    let aisles = house.aisles as usize;
    let place = aisles * house.deep as usize + aisle as usize - 1;
    (at(uses, place), at(uses, place + aisles - 1))
}

impl Part {
    // With the passages to the next aisle, and that aisle's use.
    fn extended(self, passages: (u8, u8), lane: &[u8], kind: Kind) -> Part {
        let (front, back) = passages;
        let kept = self.linked && front > 0 && back > 0;
        Part {
            front: front.saturating_add(at(lane, 0)),
            back: back.saturating_add(at(lane, lane.len().saturating_sub(1))),
            linked: kept || matches!(kind, Kind::Once | Kind::Twice),
            used: self.used || self.front > 0 || self.back > 0,
        }
    }
}

fn more(counts: &mut [u32], i: usize) {
    if i < counts.len() {
        counts[i] = counts[i].saturating_add(1);
    }
}

// Each was seen, but for the one that must not be.
fn check_seen(rt: &impl Abort, what: &str, counts: &[u32], never: Option<usize>) {
    for (i, times) in counts.iter().enumerate() {
        assert!(rt; (*times == 0) == (Some(i) == never), "{what}: {counts:?}");
    }
}

impl Counts {
    pub fn none() -> Counts {
        Counts {
            passages: [0; 5],
            kinds: [0; 6],
            classes: [0; 7],
        }
    }

    fn add_aisle(
        &mut self,
        house: House,
        uses: &[u8],
        aisle: u8,
        before: Part,
    ) -> Result<Part, Fail> {
        let deep = house.deep as usize;
        let start = aisle as usize * deep;
        let Some(lane) = uses.get(start..start + deep) else {
            return Err(Fail::new("no such aisle"));
        };
        let (front, back) = passages_to(house, uses, aisle);
        if aisle > 0 {
            more(&mut self.passages, passage_of(front, back)? as usize);
        }
        let kind = kind_of(lane)?;
        more(&mut self.kinds, kind as usize);
        let part = before.extended((front, back), lane, kind);
        more(&mut self.classes, class_of(part)? as usize);
        Ok(part)
    }

    pub fn add_way(&mut self, house: House, way: &[u8]) -> Result<(), Fail> {
        let mut uses = [9; 12926];
        count(house, way, &mut uses)?;
        let mut part = Part {
            front: 0,
            back: 0,
            linked: false,
            used: false,
        };
        for aisle in 0..house.aisles {
            part = self.add_aisle(house, &uses, aisle, part)?;
        }
        Ok(())
    }

    // None of the tours goes through an aisle twice: this is seen here, and proved nowhere.
    // No class is "nothing used yet": the desk's two uses are at the front of aisle 0, so that with an empty list too
    // the class after aisle 0 is even at the front only, and after every other aisle it is closed.
    pub fn check_all_seen(&self, rt: &impl Abort) {
        check_seen(rt, "passages", &self.passages, None);
        check_seen(rt, "kinds", &self.kinds, Some(Kind::Twice as usize));
        check_seen(
            rt,
            "classes",
            &self.classes,
            Some(Class::NothingYet as usize),
        );
    }
}
