// What the reasons ask of all files together.
ghost use Rattle.std.specs.Prelude.{◌≡◌, ◌≤◌, length};
ghost use Rattle.traverses.specs.Files.{files_in, sizes, placed, all_placed};

use super::{file_at, file_count};
use traverses::File;

// The words of all files, of which there are at most 64.
pub fn sizes(files: &[u32]) -> usize
    requires { length (files_in files.now) ≤ 64 }
    ensures { result ≡ sizes (files_in files.now) }
{
    let mut sum: usize = 0;
    for i in 0..file_count(files) {
        sum += file_at(files, i).size as usize;
    }
    sum
}

// Whether a file lies within the memory, and no word of it below the bottom.
fn placed(memory: &[u32], bottom: u32, f: File) -> bool
    ensures { result ≡ placed memory.now bottom f }
{
    let place = f.place as usize;
    let end = place + (f.size as usize);
    (end <= memory.len()) & ((f.size == 0) | (bottom <= f.place))
}

// Whether each file does.
pub fn all_placed(files: &[u32], memory: &[u32], bottom: u32) -> bool
    ensures { result ≡ all_placed (files_in files.now) memory.now bottom }
{
    (0..file_count(files)).all(|i| placed(memory, bottom, file_at(files, i)))
}
