// How partial tours go on from an aisle to the next: a decision over class, passages and the effect of the next aisle's use.
ghost use Rattle.std.specs.Prelude.{◌≡◌, Some};
ghost use Rattle.std.specs.Option.{option_map};
ghost use Rattle.aisle.specs.Values.{effect_of};
ghost use Rattle.classes.specs.Classes.{two_each, transition, opening, closes};
ghost use Rattle.classes.specs.Values.{class_of, passage_of};

use crate::class::{Class, Passage};
use aisle::Effect;

// The class at the next aisle over two passages at the front and two at the back.
fn over_both(class: Class, effect: Effect) -> Option<Class>
    ensures { option_map class_of result ≡ transition (class_of class) two_each (effect_of effect) }
{
    match class {
        Class::EvenOne => match effect {
            Effect::ThroughOnce => Some(Class::OddOdd),
            _ => Some(Class::EvenOne),
        },
        Class::EvenBack | Class::EvenFront | Class::EvenTwo | Class::NothingYet => match effect {
            Effect::ThroughOnce => Some(Class::OddOdd),
            Effect::ThroughTwice => Some(Class::EvenOne),
            _ => Some(Class::EvenTwo),
        },
        Class::OddOdd | Class::Closed => None,
    }
}

// The class at the next aisle, or none where the passages do not lead on from the class.
pub fn transition(class: Class, passage: Passage, effect: Effect) -> Option<Class>
    ensures { option_map class_of result ≡ transition (class_of class) (passage_of passage) (effect_of effect) }
{
    match (passage, class) {
        (Passage::None, Class::NothingYet) => match effect {
            Effect::Nothing => Some(Class::NothingYet),
            Effect::FromFront => Some(Class::EvenFront),
            Effect::FromBack => Some(Class::EvenBack),
            Effect::BothEnds => Some(Class::EvenTwo),
            Effect::ThroughOnce => Some(Class::OddOdd),
            Effect::ThroughTwice => Some(Class::EvenOne),
        },
        (Passage::None, Class::EvenBack | Class::EvenFront | Class::EvenOne | Class::Closed) =>
            match effect {
                Effect::Nothing => Some(Class::Closed),
                _ => None,
            },
        (Passage::OneEach, Class::OddOdd) => match effect {
            Effect::ThroughOnce => Some(Class::EvenOne),
            _ => Some(Class::OddOdd),
        },
        (Passage::TwoFront, Class::EvenFront | Class::EvenOne | Class::NothingYet) => match effect {
            Effect::Nothing | Effect::FromFront => Some(Class::EvenFront),
            Effect::FromBack | Effect::BothEnds => Some(Class::EvenTwo),
            Effect::ThroughOnce => Some(Class::OddOdd),
            Effect::ThroughTwice => Some(Class::EvenOne),
        },
        (Passage::TwoBack, Class::EvenBack | Class::EvenOne | Class::NothingYet) => match effect {
            Effect::Nothing | Effect::FromBack => Some(Class::EvenBack),
            Effect::FromFront | Effect::BothEnds => Some(Class::EvenTwo),
            Effect::ThroughOnce => Some(Class::OddOdd),
            Effect::ThroughTwice => Some(Class::EvenOne),
        },
        (Passage::TwoEach, _) => over_both(class, effect),
        _ => None,
    }
}

// The class at the first aisle: the desk at its front must be passed, and counts there as two uses.
pub fn opening(effect: Effect) -> Class
    ensures { Some (class_of result) ≡ opening (effect_of effect) }
{
    match effect {
        Effect::Nothing | Effect::FromFront => Class::EvenFront,
        Effect::FromBack | Effect::BothEnds => Class::EvenTwo,
        Effect::ThroughOnce => Class::OddOdd,
        Effect::ThroughTwice => Class::EvenOne,
    }
}

// Whether a partial tour of the class is a whole tour as it stands.
pub fn closes(class: Class) -> bool
    ensures { result ≡ closes (class_of class) }
{
    match class {
        Class::EvenBack | Class::EvenFront | Class::EvenOne | Class::NothingYet | Class::Closed =>
            true,
        Class::OddOdd | Class::EvenTwo => false,
    }
}
