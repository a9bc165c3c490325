// The files that gateways were given, numbered from 1 in order of first appearance. Equal bytes have one number,
// and unlike bytes have unlike numbers.
ghost use Rattle.std.specs.Prelude.{◌≡◌, [], map, IfOk, vec_items, MatchOption};
ghost use Rattle.meters.specs.Numbering.{Absent, Stands, Numbered, Unlike, Kept};

use std::alloc::{AllocError, Global};

#[derive(Drop)]
pub struct Given {
    files: Vec<Vec<u8>>,
    ghost unlike: { Unlike (map vec_items files.items) },
}

impl Given {
    pub fn new(heap: Global) -> Given
        ensures { result.files.items ≡ [] }
    {
        Given {
            files: Vec::new(heap),
        }
    }

    pub fn files(&self) -> &[Vec<u8>]
        ensures { result.now ≡ self.now.files.items }
    {
        self.files.as_slice()
    }

    // The number of the file with these bytes, which is new where no gateway was given it.
    pub fn number(&mut self, heap: Global, bytes: &[u8]) -> Result<usize, AllocError>
        ensures number { IfOk result (λ n. Numbered (map vec_items self.new.files.items) n bytes.now) }
        ensures kept { Kept (map vec_items self.old.files.items) (map vec_items self.new.files.items) }
    {
        if let Some(place) = place_of_file(self.files.as_slice(), bytes) {
            return Ok(place + 1);
        }
        let file = Vec::from_slice(heap, bytes)?;
        self.files.push(file)?;
        Ok(self.files.len())
    }
}

// The place of the file with these bytes. There are two files at most, one for each byte order, so a map would find
// none of them sooner.
fn place_of_file(files: &[Vec<u8>], bytes: &[u8]) -> Option<usize>
    ensures { MatchOption result (Absent (map vec_items files.now) bytes.now) (λ i. Stands (map vec_items files.now) i bytes.now) }
{
    files
        .iter()
        .map(Vec::as_slice)
        .position(|file| file == bytes)
}
