// The groups of bits: one given to a page, and an address marked.
ghost use Rattle.std.specs.Prelude.{◌≡◌, ◌+◌, ◌^◌, ◌<◌, replicate};
ghost use Rattle.std.proofs.lemmas.List.Edits.{sets};
ghost use Rattle.marks.specs.Marks.{given, spare, bit_place, with_bit, with_group, with_mark};

use operands::{load, store};

// Where a group has an address's bit.
pub fn bit_place(group: u32, address: u32) -> usize
    ensures { result ≡ bit_place group address }
{
    16_384 + 32 * (group as usize) + (address % 1_024 / 32) as usize
}

// An address's bit is set.
fn set_bit(map: &mut [u32], address: u32)
    ensures { map.new ≡ with_bit map.old address }
{
    let group = load(map, (address / 1_024) as usize);
    let at = bit_place(group, address);
    let word = load(map, at);
    store(map, at, word | (1u32 << (address % 32)));
}

// Some words from a place on become 0, as far as there are words.
pub fn clear(map: &mut [u32], from: usize, count: usize)
    requires { from + count < 2 ^ 63 }
    ensures { map.new ≡ sets map.old from (replicate count 0) }
{
    // The range ends with the map: with a range of `count` the compiler makes no single clearing of it, and each word took twelve times as long.
    for i in from..map.len().min(from + count) {
        store(map, i, 0);
    }
}

// Whether there is a group for one page more.
pub fn has_spare(map: &[u32]) -> bool
    ensures { result ≡ spare map.now }
{
    let last = load(map, 16_384);
    (last < 65_535) & (16_384 + 32 * (last as usize + 2) <= map.len())
}

// The next group, cleared, is given to an address's page.
fn give_group(map: &mut [u32], address: u32)
    requires { given map.old < 65535 }
    ensures { map.new ≡ with_group map.old address }
{
    let next = load(map, 16_384) + 1;
    clear(map, 16_384 + 32 * (next as usize), 32);
    store(map, 16_384, next);
    store(map, (address / 1_024) as usize, next);
}

// An address is marked, as far as there are groups.
pub fn mark(map: &mut [u32], address: u32)
    ensures { map.new ≡ with_mark map.old address }
{
    if load(map, (address / 1_024) as usize) == 0 {
        if !has_spare(map) {
            return;
        }
        give_group(map, address);
    }
    set_bit(map, address);
}
