// The pair of a store, kept in the journal where its address has none yet.
ghost use Rattle.marks.specs.Marks.{noting_at};
ghost use Rattle.step.specs.Keeping.{Keeps};

use marks::{is_marked, note};
use operands::store;

// After a store, if it was done. A run that keeps no journal lends a map of no words. Where the journal is full, the store is taken back. Whether it
// is full. Most stores are to addresses that are marked, which is asked here and not in a call.
pub fn keep(
    done: bool,
    memory: &mut [u32],
    journal: &mut [u32],
    map: &mut [u32],
    pairs: &mut usize,
    address: u32,
    former: u32,
) -> bool
    ensures { Keeps memory.old journal.old map.old pairs.old done address former memory.new journal.new map.new (noting_at result pairs.new) }
{
    if !done | (map.len() == 0) {
        return false;
    }
    if is_marked(&*map, address) {
        return false;
    }
    let full = note(map, journal, pairs, address, former);
    if full {
        store(memory, address as usize, former);
    }
    full
}
