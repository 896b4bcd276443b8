// What reading a file comes to, in a form that a table can hold.
use house::{House, Refusal};
use std::process::Abort;

// Kept: (d) a table shows the number and place that README promises, not the case that has them.
#[derive(Clone, Copy, PartialEq, Eq, Debug)]
pub enum Answer {
    // the house that is handed on: its aisles, how deep they are and how far apart
    Accepted(u8, u8, u8),
    // a number and a place
    Refused(u8, usize),
}

// A file and its answer.
pub struct Row(pub &'static [u8], pub Answer);

impl From<House> for Answer {
    fn from(house: House) -> Answer {
        Answer::Accepted(house.aisles, house.deep, house.apart)
    }
}

impl From<Refusal> for Answer {
    fn from(refusal: Refusal) -> Answer {
        Answer::Refused(refusal.number(), refusal.place())
    }
}

pub fn answer_to_plan(file: &[u8]) -> Answer {
    match house::read(file) {
        Ok(picks) => picks.house.into(),
        Err(refusal) => refusal.into(),
    }
}

pub fn answer_to_claim(file: &[u8]) -> Answer {
    match house::read_claim(file) {
        Ok(claim) => claim.picks.house.into(),
        Err(refusal) => refusal.into(),
    }
}

// Holds the answers to files to those that a table asks for.
pub fn check_rows<F: Fn(&[u8]) -> Answer>(rt: &impl Abort, rows: &[Row], answer_to: F)
    requires { F.IsAlwaysCallable answer_to }
{
    for Row(file, want) in rows {
        assert_eq!(rt; answer_to(file), *want, "file {file:?}");
    }
}
