// Why the uses of a way are not counted.
ghost use Rattle.std.specs.Prelude.{◌≡◌};
ghost use Rattle.uses.specs.declared.miscount.Miscount.TheVariants.{Refused};

use house::Refusal;

#[derive(Clone, Copy, Debug, PartialEq, Eq)]
pub enum Miscount {
    Refused(Refusal),
    // the step with which a stretch is used more than 255 times
    Overfull(usize),
}

impl From<Refusal> for Miscount {
    ghost from_gives = { λ e r. r ≡ Refused e };

    fn from(refusal: Refusal) -> Miscount {
        Miscount::Refused(refusal)
    }
}
