// A flood over what is used: it leaves the spots that wait, in all directions along what is used.
ghost use Rattle.std.specs.Prelude.{◌≡◌, ◌<◌, ◌≤◌};
ghost use Rattle.house.specs.Reading.{house_of, spot_of};
ghost use Rattle.walk.specs.Codes.{byte_of};
ghost use Rattle.walk.specs.Marking.{has};
ghost use Rattle.uses.specs.Flood.{Flooding, left, offered, tried, spread, dry, Pops};

use crate::crossing::Crossing;
use crate::looking::look;
use crate::stack::Stack;
use house::Spot;
use std::marker::Model;
use walk::{Step, cell};

#[derive(Drop)]
pub(crate) struct Flood {
    // Kept: (d) the flags are an array and one look; a type in walk for both would be three public functions for two lines.
    // a flag for each spot: 64 aisles, each with the depths from 0 to 200
    seen: [bool; 12864],
    // the spots that were seen and not left yet
    waiting: Stack,
}

// There is room for every spot that is not seen yet.
impl Model for Flood {
    ghost Value = { Flooding };

    ghost view = { λ f. record { seen = f.seen; waiting = f.waiting } };

    ghost invariant = { λ f. left (record { seen = f.seen; waiting = f.waiting }) ≤ 12864 };
}

impl Flood {
    pub(crate) fn new() -> Flood
        ensures { result ≡ dry }
    {
        Flood {
            seen: [false; 12864],
            waiting: Stack::new(),
        }
    }

    pub(crate) fn has(&self, spot: Spot) -> bool
        ensures { result ≡ has self.now.seen (spot_of spot) }
    {
        self.seen.get(cell(spot)).copied().unwrap_or(false)
    }

    // The spot that waits last, if one does.
    pub(crate) fn pop(&mut self) -> Option<Spot>
        ensures { Pops self.old self.new result }
    {
        self.waiting.pop()
    }

    // Marks a spot that is reached along something in use, and lets it wait, unless it was seen before.
    pub(crate) fn offer(&mut self, used: u8, next: Spot)
        requires { (next.aisle < 64) × (next.depth ≤ 200) }
        ensures { self.new ≡ offered used next self.old }
    {
        let place = cell(next);
        if used > 0 && !self.seen[place] {
            self.seen[place] = true;
            self.waiting.push(next);
        }
    }

    // Looks from a spot in the direction of one step.
    fn try_step(&mut self, from: Crossing<'_>, step: Step)
        ensures { self.new ≡ tried (house_of from.entry.house) from.entry.entries.now (spot_of from.entry.at) (byte_of step) self.old }
    {
        if let Some((entry, next)) = look(from.house, from.at, step) {
            self.offer(from.entries[entry], next);
        }
    }

    // Looks from a spot in all six directions.
    pub(crate) fn leave(&mut self, from: Crossing<'_>)
        ensures { self.new ≡ spread (house_of from.entry.house) from.entry.entries.now (spot_of from.entry.at) self.old }
    {
        for step in Step::ALL {
            self.try_step(from, step);
        }
    }
}
