// Laying a file's words, each noted in the journal as a store is.
ghost use Rattle.traverse.specs.Steps.{LaysOne, LaysFit, Lays};

use marks::{Noting, note};
use operands::{load, store};

// One word laid, unless the journal is full.
fn lay_one(
    memory: &mut [u32],
    journal: &mut [u32],
    map: &mut [u32],
    pairs: usize,
    address: u32,
    word: u32,
) -> Noting
    ensures { LaysOne memory.old journal.old map.old pairs address word memory.new journal.new map.new result }
{
    let at = address as usize;
    let mut noted = pairs;
    let full = note(map, journal, &mut noted, address, load(&*memory, at));
    if full {
        return Noting { full, pairs: noted };
    }
    store(memory, at, word);
    Noting { full, pairs: noted }
}

// All words, from a place on, after the journal's pairs so far.
pub fn lay(
    memory: &mut [u32],
    journal: &mut [u32],
    map: &mut [u32],
    pairs: usize,
    words: &[u32],
    place: u32,
) -> Noting
    requires { LaysFit map.old words.now place }
    ensures { Lays memory.old journal.old map.old pairs words.now place memory.new journal.new map.new result }
{
    let mut noted = pairs;
    for (j, word) in words.iter().enumerate() {
        let n = lay_one(memory, journal, map, noted, place + (j as u32), *word);
        if n.full {
            return n;
        }
        noted = n.pairs;
    }
    Noting {
        full: false,
        pairs: noted,
    }
}
