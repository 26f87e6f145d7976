// The store into operand B, with its pair in the journal.
ghost use Rattle.marks.specs.Marks.{noting_at};
ghost use Rattle.step.specs.Steps.{PutsWord};

use super::fetch::Fetched;
use super::keep::keep;
use operands::{in_memory, store_above};
use registers::set_register;

// Into the register, or to the address that B was taken from, if `x` is to be stored; a store below the bottom alters nothing and has no pair.
// Whether the journal is full, and the store not done.
pub fn put(
    stored: bool,
    f: Fetched,
    x: u32,
    regs: &mut [u32; 8],
    memory: &mut [u32],
    bottom: u32,
    journal: &mut [u32],
    map: &mut [u32],
    pairs: &mut usize,
) -> bool
    ensures { PutsWord bottom stored f x regs.old memory.old journal.old map.old pairs.old regs.new memory.new journal.new map.new (noting_at result pairs.new) }
{
    if !stored {
        return false;
    }
    let ob = f.ob;
    if in_memory(ob) {
        let done = store_above(memory, bottom, f.address, x);
        return keep(done, memory, journal, map, pairs, f.address, f.b);
    }
    set_register(ob, x, regs);
    false
}
