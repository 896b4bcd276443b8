// A piece of a way: steps of one sort, walked without a turn.
ghost use Rattle.std.specs.Prelude.{◌≡◌};
ghost use Rattle.text.specs.Piece.{piece_at, words_of};

use walk::Step;

// A step, and how often it is taken.
#[derive(Clone, Copy, Debug, PartialEq, Eq)]
pub struct Piece {
    pub step: Step,
    pub steps: usize,
}

impl Piece {
    // So many steps with this byte; above 5 there is no step.
    pub(crate) fn of(byte: u8, steps: usize) -> Option<Piece>
        ensures { result ≡ piece_at byte steps }
    {
        let step = Step::try_from(byte).ok()?;
        Some(Piece { step, steps })
    }

    // The words for its sort.
    pub(crate) fn words(self) -> &'static str
        ensures { result.now ≡ words_of self }
    {
        match self.step {
            Step::Deeper => "in",
            Step::Back => "out",
            Step::NextFront => "next front",
            Step::BeforeFront => "before front",
            Step::NextBack => "next back",
            Step::BeforeBack => "before back",
        }
    }
}
