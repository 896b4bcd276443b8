// The house from above, and its picks.
ghost use Rattle.std.specs.Prelude.{◌≡◌, ◌++◌, string_bytes, OnOk};
ghost use Rattle.house.specs.Reading.{house_of, spot_of};
ghost use Rattle.picture.specs.Floor.{ways_lines, aisle_line, aisle_lines, pick_line, pick_lines, desk_lines};

use crate::places::{across, down};
use house::{House, Spot, picks_in};
use std::alloc::AllocError;

// How the house is drawn; its front way and its back way.
pub(crate) fn add_ways(text: &mut String, house: House) -> Result<(), AllocError>
    ensures { OnOk result (string_bytes text.new ≡ string_bytes text.old ++ ways_lines (house_of house)) }
{
    let right = across(house.aisles - 1);
    let back = down(house.deep);
    writeln!(
        text,
        "<g stroke='#e2e8f0' stroke-width='26' stroke-linecap='round' text-anchor='middle'>\n<path d='M72 84H{right}M72 {back}H{right}'/>"
    )
}

#[tactic(auto, unfolding(crate::specs::Floor::aisle_lines))]
pub(crate) fn add_aisles(text: &mut String, house: House) -> Result<(), AllocError>
    ensures { OnOk result (string_bytes text.new ≡ string_bytes text.old ++ aisle_lines (house_of house) house.aisles) }
{
    for aisle in 0..house.aisles {
        add_aisle(text, house, aisle)?;
    }
    Ok(())
}

fn add_aisle(text: &mut String, house: House, aisle: u8) -> Result<(), AllocError>
    ensures { OnOk result (string_bytes text.new ≡ string_bytes text.old ++ aisle_line (house_of house) aisle) }
{
    let x = across(aisle);
    let back = down(house.deep);
    let below = back + 36;
    writeln!(
        text,
        "<path d='M{x} 84V{back}'/><text x='{x}' y='{below}' stroke='none'>{aisle}</text>"
    )
}

// The desk, and the words beside the front way and the back way.
pub(crate) fn add_desk(text: &mut String, house: House) -> Result<(), AllocError>
    ensures { OnOk result (string_bytes text.new ≡ string_bytes text.old ++ desk_lines (house_of house)) }
{
    let back = down(house.deep) + 6;
    writeln!(
        text,
        "</g>\n<rect x='59' y='71' width='26' height='26' fill='#fde68a' stroke='#111827' stroke-width='2'/>\n<text x='12' y='90'>desk</text>\n<text x='12' y='{back}'>back</text>"
    )
}

pub(crate) fn add_picks(text: &mut String, list: &[u8]) -> Result<(), AllocError>
    ensures { OnOk result (string_bytes text.new ≡ string_bytes text.old ++ pick_lines list.now) }
{
    for pick in picks_in(list) {
        add_pick(text, pick)?;
    }
    Ok(())
}

fn add_pick(text: &mut String, pick: Spot) -> Result<(), AllocError>
    ensures { OnOk result (string_bytes text.new ≡ string_bytes text.old ++ pick_line (spot_of pick)) }
{
    let x = across(pick.aisle);
    let y = down(pick.depth);
    writeln!(text, "<circle cx='{x}' cy='{y}' r='5' fill='#c2410c'/>")
}
