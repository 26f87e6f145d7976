// The search for an address in a journal, which its map spares while there are groups to give.
ghost use Rattle.std.specs.Prelude.{◌≡◌, false};
ghost use Rattle.marks.specs.Marks.{has_mark, searched, known};

use super::group::has_spare;
use operands::load;

// Whether an address has one of the first pairs in a journal's places.
fn is_listed(journal: &[u32], pairs: usize, address: u32) -> bool
    ensures { result ≡ searched journal.now pairs address }
{
    pairs <= journal.len() / 2 && (0..pairs).any(|k| journal[2 * k] == address)
}

// Whether an address without a mark has a pair: only a page without a group can have one, and only once the groups are used up.
pub fn is_unmarked_known(map: &[u32], journal: &[u32], pairs: usize, address: u32) -> bool
    requires { has_mark map.now address ≡ false }
    ensures { result ≡ known map.now journal.now pairs address }
{
    load(map, (address / 1_024) as usize) == 0
        && !has_spare(map)
        && is_listed(journal, pairs, address)
}
