// The choice at an aisle, and the byte that stands for it in the table.
ghost use Rattle.std.specs.Prelude.{◌≡◌};
ghost use Rattle.partial.specs.Choice.{number_of, StandsFor};

use aisle::Effect;
use classes::{Class, Passage};

// The class before, the passages to the aisle, and the effect of its use.
#[derive(Clone, Copy, Debug, PartialEq, Eq)]
pub struct Choice {
    pub class: Class,
    pub passage: Passage,
    pub effect: Effect,
}

impl From<Choice> for u8 {
    ghost from_gives = { λ choice byte. byte ≡ number_of choice };

    fn from(choice: Choice) -> u8 {
        30 * choice.class as u8 + 6 * choice.passage as u8 + choice.effect as u8
    }
}

// A byte above 209, which no choice has, is read as one after which the tour was closed.
impl From<u8> for Choice {
    ghost from_gives = { StandsFor };

    fn from(byte: u8) -> Choice {
        Choice {
            class: Class::ALL[(byte / 30).min(6) as usize],
            passage: Passage::ALL[(byte / 6 % 5) as usize],
            effect: Effect::ALL[(byte % 6) as usize],
        }
    }
}
