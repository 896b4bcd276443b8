// The whole picture, part by part.
ghost use Rattle.std.specs.Prelude.{◌≡◌, ◌++◌, IfOk, string_bytes, OnOk};
ghost use Rattle.house.specs.Reading.{house_of};
ghost use Rattle.picture.specs.Picture.{open_line, title_lines, floor_of, background_of, way_of, picture_of};

use crate::floor::{add_aisles, add_desk, add_picks, add_ways};
use crate::places::{across, down};
use crate::strokes::add_strokes;
use house::House;
use std::alloc::{AllocError, Global};
use walk::measure;

// A picture, in SVG, of a way through a house past the picks of a list. It scales with the screen.
pub fn picture(heap: Global, house: House, list: &[u8], way: &[u8]) -> Result<String, AllocError>
    ensures { IfOk result (λ s. string_bytes s ≡ picture_of (house_of house) list.now way.now) }
{
    let mut text = background(heap, house, list, measure(house, way))?;
    add_way(&mut text, house, way)?;
    Ok(text)
}

// What lies below the way: the length, the house and the picks.
#[tactic(auto, using(std::proofs::Common::append_assoc), unfolding(crate::specs::Picture::background_of))]
fn background(heap: Global, house: House, list: &[u8], length: u128) -> Result<String, AllocError>
    ensures { IfOk result (λ s. string_bytes s ≡ background_of (house_of house) list.now length) }
{
    let mut text = String::new(heap);
    add_open(&mut text, house)?;
    add_title(&mut text, length)?;
    add_floor(&mut text, house)?;
    add_picks(&mut text, list)?;
    Ok(text)
}

fn add_open(text: &mut String, house: House) -> Result<(), AllocError>
    ensures { OnOk result (string_bytes text.new ≡ string_bytes text.old ++ open_line (house_of house)) }
{
    let width = across(house.aisles) + 24;
    let height = down(house.deep) + 54;
    writeln!(
        text,
        "<svg xmlns='http://www.w3.org/2000/svg' viewBox='0 0 {width} {height}' font-family='sans-serif' font-size='16' fill='#111827'>"
    )
}

// The length, as the picture's name and as its heading on a white ground.
fn add_title(text: &mut String, length: u128) -> Result<(), AllocError>
    ensures { OnOk result (string_bytes text.new ≡ string_bytes text.old ++ title_lines length) }
{
    writeln!(
        text,
        "<title>A tour of length {length}</title>\n<marker id='tip' viewBox='0 0 8 8' refX='7' refY='4' markerWidth='4' markerHeight='4' orient='auto'><path d='M0 0L8 4L0 8z' fill='#1d4ed8'/></marker>\n<rect width='100%' height='100%' fill='#ffffff'/>\n<text x='12' y='34' font-size='22'>length {length}</text>"
    )
}

fn add_floor(text: &mut String, house: House) -> Result<(), AllocError>
    ensures { OnOk result (string_bytes text.new ≡ string_bytes text.old ++ floor_of (house_of house)) }
{
    add_ways(text, house)?;
    add_aisles(text, house)?;
    add_desk(text, house)
}

fn add_way(text: &mut String, house: House, way: &[u8]) -> Result<(), AllocError>
    ensures { OnOk result (string_bytes text.new ≡ string_bytes text.old ++ way_of (house_of house) way.now) }
{
    writeln!(
        text,
        "<g fill='none' stroke='#1d4ed8' stroke-width='3' stroke-linejoin='round' marker-end='url(#tip)'>"
    )?;
    add_strokes(text, house, way)?;
    writeln!(text, "</g>\n</svg>")
}
