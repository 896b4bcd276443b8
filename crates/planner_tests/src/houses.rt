// Small houses with their lists, drawn from a seed.
use std::alloc::{AllocError, Global};

#[derive(Drop)]
pub struct Draws {
    pub state: u32,
}

impl Draws {
    // Marsaglia's xorshift, of which the highest byte is handed on.
    fn byte(&mut self) -> u8 {
        self.state ^= self.state << 13;
        self.state ^= self.state >> 17;
        self.state ^= self.state << 5;
        (self.state >> 24) as u8
    }

    // A file to plan: 1 to 4 aisles, 2 to 6 deep, 1 to 5 apart, and up to 5 picks, which may be named again.
    pub fn list(&mut self, heap: Global) -> Result<Vec<u8>, AllocError> {
        let aisles = 1 + self.byte() % 4;
        let deep = 2 + self.byte() % 5;
        let apart = 1 + self.byte() % 5;
        let mut file = Vec::from_slice(heap, &[aisles, deep, apart])?;
        for _ in 0..self.byte() % 6 {
            let aisle = self.byte() % aisles;
            let depth = 1 + self.byte() % (deep - 1);
            file.extend_from_slice(&[aisle, depth])?;
        }
        Ok(file)
    }
}
