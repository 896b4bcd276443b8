// The places of the edges of a house in a slice of uses: the steps of the aisles, the passages at the front, those at the back.
ghost use Rattle.std.specs.Prelude.{◌≡◌, ◌*◌, ◌≤◌};
ghost use Rattle.house.specs.Reading.{house_of};
ghost use Rattle.uses.specs.Edges as edges;
ghost use Rattle.uses.specs.Layout.{place, places};

use house::House;

// How many places the steps of the aisles take.
pub fn steps(house: House) -> usize
    ensures is { result ≡ house.aisles * house.deep }
    ensures few { result ≤ 12800 }
{
    house.aisles as usize * house.deep as usize
}

// How many places the house takes.
pub fn places(house: House) -> usize
    ensures is { result ≡ places (house_of house) }
    ensures few { result ≤ 12926 }
{
    steps(house) + 2 * (house.aisles as usize - 1)
}

// The place of the step from this depth to the next.
pub fn lane(house: House, aisle: u8, depth: u8) -> usize
    ensures { result ≡ place (house_of house) (edges.lane aisle depth) }
{
    aisle as usize * house.deep as usize + depth as usize
}

// The places of the passages from this aisle to the next.
pub fn front(house: House, aisle: u8) -> usize
    ensures { result ≡ place (house_of house) (edges.front aisle) }
{
    steps(house) + aisle as usize
}

pub fn back(house: House, aisle: u8) -> usize
    ensures { result ≡ place (house_of house) (edges.back aisle) }
{
    steps(house) + (house.aisles as usize - 1) + aisle as usize
}
