// The file that claims a way for a pick list, as the checker reads it.
ghost use Rattle.std.specs.Prelude.{◌≡◌, ◌/◌, length, take, IfOk};
ghost use Rattle.house.specs.Bounds.{picks_of};
ghost use Rattle.text.specs.Claims.{two_bytes, claim_bytes};

use house::list_of;
use std::alloc::{AllocError, Global};

// The house and the list of a file to plan, with the number of picks between them, and then the way.
pub fn claim(heap: Global, file: &[u8], way: &[u8]) -> Result<Vec<u8>, AllocError>
    ensures { IfOk result (λ v. v.items ≡ claim_bytes file.now way.now) }
{
    let list = list_of(file);
    let mut bytes = Vec::from_slice(heap, house_of(file))?;
    bytes.extend_from_slice(&two_bytes(pick_count(list)))?;
    bytes.extend_from_slice(list)?;
    bytes.extend_from_slice(way)?;
    Ok(bytes)
}

// The bytes of the house.
fn house_of(file: &[u8]) -> &[u8]
    ensures { result.now ≡ take 3 file.now }
{
    file.get(..3).unwrap_or(file)
}

fn pick_count(list: &[u8]) -> usize
    ensures { result ≡ length (picks_of list.now) }
{
    list.len() / 2
}

// The lower two bytes of a number.
fn two_bytes(n: usize) -> [u8; 2]
    ensures { result ≡ two_bytes n }
{
    let [low, high, ..] = n.to_le_bytes();
    [low, high]
}
