// A file to plan, walked with uses of its house.
use euler::{Unwalked, Walked, walk_round};
use house::read;

pub fn walk_list(file: &[u8], uses: &mut [u8], steps: &mut [u8]) -> Result<Walked, Unwalked> {
    walk_round(read(file)?, uses, steps)
}
