// The files of a traverse as they are lent, in a flat list of four numbers each: read, added up, and the first reason to turn a traverse
// down.
#![tactic(auto)]

mod sums;

ghost use Rattle.std.specs.Prelude.{◌≡◌, length};
ghost use Rattle.traverses.specs.Files.{files_in, file_at};
ghost use Rattle.traverses.specs.Calls.{files_fit, version_fits, traverse_verdict};

use model::Refusal;
use refusals::demand;
use sums::{all_placed, sizes};
use traverses::File;
use verdicts::file_verdict;

// The most files of a traverse.
const MOST_FILES: usize = 64;

// How many files a list holds.
pub fn file_count(files: &[u32]) -> usize
    ensures { result ≡ length (files_in files.now) }
{
    files.len() / 4
}

// File i; past the last one a file of no words that runs nothing.
pub fn file_at(files: &[u32], i: usize) -> File
    ensures { result ≡ file_at files.now i }
{
    let (list, _) = files.as_chunks::<4>();
    let [place, size, entry, count] = *list.get(i).unwrap_or(&[0; 4]);
    File {
        place,
        size,
        entry,
        count,
    }
}

// Reasons 16, 17 and 18.
fn files_fit(memory: &[u32], bottom: u32, words: &[u32], files: &[u32]) -> Result<(), Refusal>
    ensures { result ≡ files_fit (files_in files.now) memory.now bottom words.now }
{
    // The words are added up only where there are few files, so that no sum overflows.
    if MOST_FILES < file_count(files) {
        return Err(Refusal::TooManyFiles);
    }
    demand(all_placed(files, memory, bottom), Refusal::FileMisplaced)?;
    demand(sizes(files) == words.len(), Refusal::WordsMismatched)
}

// Reason 11. A version is a number, since a caller from C may give any, and this reason has its turn after the others.
fn version_fits(version: u32) -> Result<(), Refusal>
    ensures { result ≡ version_fits version }
{
    demand((version == 1) | (version == 2), Refusal::WrongVersion)
}

// The first reason to turn a traverse down.
#[tactic(auto, unfolding(traverses::specs::Calls::traverse_verdict))]
pub fn traverse_verdict(
    memory: &[u32],
    bottom: u32,
    words: &[u32],
    files: &[u32],
    version: u32,
) -> Result<(), Refusal>
    ensures { result ≡ traverse_verdict memory.now bottom words.now (files_in files.now) version }
{
    // 1, 2 and 21; 16, 17 and 18; 11.
    file_verdict(memory, bottom)?;
    files_fit(memory, bottom, words, files)?;
    version_fits(version)
}
