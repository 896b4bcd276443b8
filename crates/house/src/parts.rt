// The parts of a file: each borrows from the file, and nothing is copied.
ghost use Rattle.std.specs.Prelude.{◌≡◌, drop};
ghost use Rattle.house.specs.Reading.{byte_at, count_in, list_in, claimed_list, claimed_way};

// The pick list and the way of a file that claims a way.
#[derive(Clone, Copy, Debug, PartialEq, Eq)]
pub struct Claim<'a> {
    // an aisle and a depth for each pick
    pub list: &'a [u8],
    // a byte for each step
    pub way: &'a [u8],
}

// A byte of a file. One that is missing reads as 0.
pub(crate) fn byte_at(file: &[u8], i: usize) -> u8
    ensures { result ≡ byte_at file.now i }
{
    file.get(i).copied().unwrap_or(0)
}

// The number of picks that a claim names: two bytes, the low one first.
pub(crate) fn count_of(file: &[u8]) -> usize
    ensures { result ≡ count_in file.now }
{
    u16::from_le_bytes([byte_at(file, 3), byte_at(file, 4)]).into()
}

// What follows the first n bytes.
pub(crate) fn after(bytes: &[u8], n: usize) -> &[u8]
    ensures { result.now ≡ drop n bytes.now }
{
    bytes.get(n..).unwrap_or(&[])
}

// The pick list of a file to plan: what follows the house.
pub fn list_of(file: &[u8]) -> &[u8]
    ensures { result.now ≡ list_in file.now }
{
    after(file, 3)
}

// The list of a claim is as long as its count says, or as the file goes; the way is the rest.
pub fn claim_of(file: &[u8]) -> Claim<'_>
    ensures list { result.list.now ≡ claimed_list file.now }
    ensures way { result.way.now ≡ claimed_way file.now }
{
    let n = 2 * count_of(file);
    let rest = after(file, 5);
    let (list, way) = rest.split_at_checked(n).unwrap_or((rest, &[]));
    Claim { list, way }
}
