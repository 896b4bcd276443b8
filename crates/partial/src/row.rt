// A row of the table from the row before.
ghost use Rattle.std.specs.Prelude.{◌+◌, ◌<◌};
ghost use Rattle.aisle.specs.Values.{effect_of};
ghost use Rattle.partial.specs.Lent.{Changed};
ghost use Rattle.partial.specs.Prices.{priced};
ghost use Rattle.partial.specs.Table.{go, extend, next_row, opened, first_row};
ghost use Rattle.classes.specs.Values.{class_of, passage_of};

use crate::choice::Choice;
use crate::prices::Prices;
use crate::table::{Tables, cell, toll};
use aisle::Effect;
use classes::{Class, Passage, opening, transition};

// What lies between an aisle and the next: its number, the length of a passage, and what the next aisle costs.
#[derive(Clone, Copy)]
pub(crate) struct Stage {
    pub(crate) aisle: usize,
    pub(crate) apart: u8,
    pub(crate) prices: Prices,
    ghost few: { aisle + 1 < 64 },
}

// The passages over which each class goes on.
const MOVES: [(Class, Passage); 17] = [
    (Class::OddOdd, Passage::OneEach),
    (Class::EvenBack, Passage::None),
    (Class::EvenBack, Passage::TwoBack),
    (Class::EvenBack, Passage::TwoEach),
    (Class::EvenFront, Passage::None),
    (Class::EvenFront, Passage::TwoFront),
    (Class::EvenFront, Passage::TwoEach),
    (Class::EvenOne, Passage::None),
    (Class::EvenOne, Passage::TwoFront),
    (Class::EvenOne, Passage::TwoBack),
    (Class::EvenOne, Passage::TwoEach),
    (Class::EvenTwo, Passage::TwoEach),
    (Class::NothingYet, Passage::None),
    (Class::NothingYet, Passage::TwoFront),
    (Class::NothingYet, Passage::TwoBack),
    (Class::NothingYet, Passage::TwoEach),
    (Class::Closed, Passage::None),
];

impl Tables<'_> {
    // One way to go on is offered to the class that it leads to.
    fn go(&mut self, stage: Stage, choice: Choice)
        ensures { Changed (go stage.apart (priced stage.prices) stage.aisle (class_of choice.class) (passage_of choice.passage) (effect_of choice.effect)) self.old self.new }
    {
        let Choice {
            class,
            passage,
            effect,
        } = choice;
        let Some(next) = transition(class, passage, effect) else {
            return;
        };
        let before = self.lengths[cell(stage.aisle, class)];
        let total = before
            .saturating_add(toll(stage.apart, passage))
            .saturating_add(stage.prices.of(effect));
        self.offer(cell(stage.aisle + 1, next), total, choice);
    }

    // One class goes on over given passages, with each effect of the next aisle's use.
    fn extend(&mut self, stage: Stage, class: Class, passage: Passage)
        ensures { Changed (extend stage.apart (priced stage.prices) stage.aisle (class_of class) (passage_of passage)) self.old self.new }
    {
        for effect in Effect::ALL {
            let choice = Choice {
                class,
                passage,
                effect,
            };
            self.go(stage, choice);
        }
    }

    // The row of the next aisle: every class over all passages on which it goes on.
    pub(crate) fn next_row(&mut self, stage: Stage)
        ensures { Changed (next_row stage.apart (priced stage.prices) stage.aisle) self.old self.new }
    {
        self.clear_row(stage.aisle + 1);
        for (class, passage) in MOVES {
            self.extend(stage, class, passage);
        }
    }

    // An effect of the first aisle's use is offered to the class that it begins.
    fn open(&mut self, prices: Prices, effect: Effect)
        ensures { Changed (opened (priced prices) (effect_of effect)) self.old self.new }
    {
        let choice = Choice {
            class: Class::NothingYet,
            passage: Passage::None,
            effect,
        };
        self.offer(cell(0, opening(effect)), prices.of(effect), choice);
    }

    // The row of the first aisle, with the desk at its front.
    pub(crate) fn first_row(&mut self, prices: Prices)
        ensures { Changed (first_row (priced prices)) self.old self.new }
    {
        self.clear_row(0);
        for effect in Effect::ALL {
            self.open(prices, effect);
        }
    }
}
