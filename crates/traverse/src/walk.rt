// The files of a traverse one after the other.
ghost use Rattle.std.specs.Prelude.{◌≡◌, cond, ◌+◌, ◌^◌, ◌<◌};
ghost use Rattle.traverse.specs.Steps.{is_finished, is_full, outset, map_before, count_before, NextFits, Goes};

use super::file::one_file;
use file_list::file_at;
use interpreter::FileEnding;
use marks::forget;
use model::Machine;

// A traverse so far: the machine, the journal's pairs, bit i for undone file i, the instructions that ran in the last file run, whether its journal
// was full, and how many words the files so far have.
// `full` is asked of an undone traverse alone, which the mask tells; what stands beside it counts either way.
#[derive(Clone, Copy)]
pub struct Walk {
    pub machine: Machine,
    pub pairs: usize,
    pub undone: u64,
    pub ran: u32,
    pub full: bool,
    pub at: usize,
}

// A traverse that sets out.
pub fn set_out(start: Machine) -> Walk
    ensures { result ≡ outset start }
{
    Walk {
        machine: start,
        pairs: 0,
        undone: 0,
        ran: 0,
        full: false,
        at: 0,
    }
}

// The mask with file i, where it is undone.
fn marked(undone: u64, i: usize, ending: FileEnding) -> u64
    requires { (i < 64) × (undone < 2 ^ i) }
    ensures { result ≡ cond (is_finished ending) undone (undone + 2 ^ i) }
{
    match ending {
        FileEnding::Finished => undone,
        FileEnding::Undone | FileEnding::Full => undone + (1u64 << i),
    }
}

// Whether a file found the journal full.
fn is_full(ending: FileEnding) -> bool
    ensures { result ≡ is_full ending }
{
    matches!(ending, FileEnding::Full)
}

// How many pairs a file starts with: under rule 1 none, with a map that tells none.
fn begin(map: &mut [u32], version: u32, words: usize, pairs: usize) -> usize
    ensures { (map.new ≡ map_before version words map.old) × (result ≡ count_before version pairs) }
{
    if version == 1 {
        forget(map, words);
        return 0;
    }
    pairs
}

// One file more, number i.
pub fn next(
    memory: &mut [u32],
    bottom: u32,
    journal: &mut [u32],
    map: &mut [u32],
    words: &[u32],
    files: &[u32],
    version: u32,
    i: usize,
    w: Walk,
) -> Walk
    requires { NextFits map.old words.now files.now i w }
    ensures { Goes memory.old bottom journal.old map.old words.now files.now version i w memory.new journal.new map.new result }
{
    let f = file_at(files, i);
    let at = w.at;
    let end = at + (f.size as usize);
    let m = w.machine;
    let pairs = begin(map, version, memory.len(), w.pairs);
    let e = one_file(memory, bottom, journal, map, pairs, &words[at..end], f, m);
    let machine = e.machine;
    let undone = marked(w.undone, i, e.ending);
    Walk {
        machine,
        pairs: e.pairs,
        undone,
        ran: e.ran,
        full: is_full(e.ending),
        at: end,
    }
}
