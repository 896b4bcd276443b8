// The picks of one aisle among picks in order.
ghost use Rattle.std.specs.Prelude.{◌≡◌, ◌+◌, ◌≤◌, length, drop, take_while, ◌==◌};
ghost use Rattle.aisle.specs.Order.{run};
ghost use Rattle.aisle.specs.Values.{spots_of};

use house::Spot;

// How many picks stand in the aisle, up to the first that does not.
fn run_of(picks: &[Spot], aisle: u8) -> usize
    ensures counts { result ≡ length (take_while (λ s. s.aisle == aisle) picks.now) }
    ensures short { result ≤ length picks.now }
{
    picks.iter().take_while(|pick| pick.aisle == aisle).count()
}

// Where the picks of an aisle that begin at a place end: at the first pick of another aisle, or with the picks.
#[tactic(auto, using(crate::proofs::RunOn::run_later, crate::proofs::RunOn::run_past))]
pub fn part_end(picks: &[Spot], from: usize, aisle: u8) -> usize
    ensures { result ≡ from + run aisle (spots_of (drop from picks.now)) }
{
    let Some(later) = picks.get(from..) else {
        return from;
    };
    from + run_of(later, aisle)
}
