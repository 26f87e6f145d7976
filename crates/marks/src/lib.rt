// Which addresses have a pair in a journal, by a map of bits for the pages that are stored to; and a store's pair noted.
#![tactic(auto)]

mod group;
mod search;

ghost use Rattle.std.specs.Prelude.{◌≡◌, false, ◌+◌, ◌/◌};
ghost use Rattle.marks.specs.Marks.{has_mark, forgotten, noting_at, Notes};

use group::{bit_place, clear, mark};
use operands::{load, store};
use search::is_unmarked_known;

// A map has 49,184 words: a table of 16,384 pages, and 1,024 groups of 32 words to give, behind group 0. Whoever keeps a journal has one on its
// stack, which takes 192 KiB.

// Whether the journal had no room for a store's pair, and how many pairs it has now. No Result: by the pairs a full journal is taken back too.
#[derive(Clone, Copy)]
pub struct Noting {
    pub full: bool,
    pub pairs: usize,
}

// Whether an address's page has a group and its bit is set. A program stores mostly to such addresses, and two words of the map tell: callers in a
// hot loop ask this first, and call `note` for the others alone.
pub fn is_marked(map: &[u32], address: u32) -> bool
    ensures { result ≡ has_mark map.now address }
{
    let group = load(map, (address / 1_024) as usize);
    if group == 0 {
        return false;
    }
    let word = load(map, bit_place(group, address));
    (word >> (address % 32)) % 2 == 1
}

// A store's pair, noted where its address has none yet and the journal has room. Whether the journal had no room for it. The pairs are counted where
// the caller keeps their number, so that a loop does not carry it.
pub fn note(
    map: &mut [u32],
    journal: &mut [u32],
    pairs: &mut usize,
    address: u32,
    former: u32,
) -> bool
    ensures { Notes map.old journal.old pairs.old address former map.new journal.new (noting_at result pairs.new) }
{
    if is_marked(map, address) {
        return false;
    }
    note_new(map, journal, pairs, address, former)
}

// A store to an address without a mark.
fn note_new(
    map: &mut [u32],
    journal: &mut [u32],
    pairs: &mut usize,
    address: u32,
    former: u32,
) -> bool
    requires { has_mark map.old address ≡ false }
    ensures { Notes map.old journal.old pairs.old address former map.new journal.new (noting_at result pairs.new) }
{
    let n = *pairs;
    if is_unmarked_known(map, journal, n, address) {
        return false;
    }
    if journal.len() / 2 <= n {
        return true;
    }
    journal[2 * n] = address;
    journal[2 * n + 1] = former;
    mark(map, address);
    *pairs = n + 1;
    false
}

// No group given, for a memory of so many words: the bits of a group are cleared when it is given.
pub fn forget(map: &mut [u32], words: usize)
    ensures { map.new ≡ forgotten map.old (words / 1024 + 1) }
{
    clear(map, 0, words / 1_024 + 1);
    store(map, 16_384, 0);
}
