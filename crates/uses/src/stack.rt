// Spots on a stack, in an array with room for one of each flag.
ghost use Rattle.std.specs.Prelude.{◌≡◌, ◌<◌, ◌≤◌, List, [], ◌∷◌, ◌++◌, length, take, MatchOption};
ghost use Rattle.house.specs.declared.layout.Spot as spot;

use house::Spot;
use std::marker::Model;
use walk::DESK;

// Kept: (a) fixed memory and no heap are rules of the project, so an array and its top stand where a Vec would.
#[derive(Drop)]
pub(crate) struct Stack {
    spots: [Spot; 12864],
    top: usize,
}

// Clauses see the spots, the top last.
impl Model for Stack {
    ghost Value = { List spot.Spot };

    ghost view = { λ s. take s.top s.spots };

    ghost invariant = { λ s. s.top ≤ 12864 };
}

impl Stack {
    pub(crate) fn new() -> Stack
        ensures { result ≡ [] }
    {
        Stack {
            spots: [DESK; 12864],
            top: 0,
        }
    }

    pub(crate) fn push(&mut self, spot: Spot)
        requires { length self.old < 12864 }
        ensures { self.new ≡ self.old ++ spot ∷ [] }
    {
        self.spots[self.top] = spot;
        self.top += 1;
    }

    pub(crate) fn pop(&mut self) -> Option<Spot>
        ensures { MatchOption result ((self.old ≡ []) × (self.new ≡ [])) (λ s. self.old ≡ self.new ++ s ∷ []) }
    {
        self.top = self.top.checked_sub(1)?;
        Some(self.spots[self.top])
    }
}
