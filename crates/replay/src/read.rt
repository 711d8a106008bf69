// Entries of the list: a word that has what the entry is and, times 256, how many words follow; then
// these. A word has its low byte first.
ghost use Rattle.std.specs.Prelude.{◌≤◌};

use rows::Row;
use std::fs::File;

#[derive(Clone, Copy)]
pub struct Entry {
    pub number: u32,
    pub words: Row,
}

// The words that follow, where the list has so many.
fn taken(file: &mut File, count: usize) -> Option<Row>
    requires { count ≤ 1024 }
{
    let mut buffer = io::buffer();
    let bytes = tools::fill(file, &mut buffer[..4 * count]).bytes;
    if bytes.len() != 4 * count {
        return None;
    }
    let mut list = [0u32; 1024];
    for (word, bytes) in list.iter_mut().zip(bytes.as_chunks::<4>().0) {
        *word = u32::from_le_bytes(*bytes);
    }
    Some(Row { list, count })
}

// None where the list ends, or cannot be read.
pub fn next(file: &mut File) -> Option<Entry> {
    let head = taken(file, 1)?.list[0];
    let count = (head / 256) as usize;
    if count > 1023 {
        return None;
    }
    Some(Entry {
        number: head % 256,
        words: taken(file, count)?,
    })
}
