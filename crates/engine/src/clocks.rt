// The clocks of an instruction, with the waits of its accesses.
ghost use Rattle.std.specs.Prelude.{◌≡◌, true, cond, ◌+◌, ◌^◌, ◌≤◌, ◌<◌, length};
ghost use Rattle.model.specs.Waits.{position_fits};
ghost use Rattle.model.specs.Interpreter.{cost_of};
ghost use Rattle.engine.specs.Clocks.{begins_at, more_of, spent_of};

use model::Operand;
use operands::in_memory;
use wait_list::{next_position, position_fits};

// Clocks so far, and the position in the wait list.
#[derive(Clone, Copy)]
pub struct Spent {
    pub clocks: u64,
    pub position: usize,
}

// Where a run begins in the wait list. A caller gives a position that fits; any other is taken for 0, so that the loop's position always fits.
pub fn begins_at(waits: &[u16], from: u32) -> usize
    ensures { result ≡ begins_at waits.now from }
{
    let position = from as usize;
    if position_fits(waits, position) {
        return position;
    }
    0
}

// 8 clocks, and one each for A in memory, B in memory and a store.
fn cost(a: bool, b: bool, stored: bool) -> u64
    ensures value { result ≡ cost_of a b stored }
    ensures few { result ≤ 11 }
{
    8 + (a as u64) + (b as u64) + (stored as u64)
}

// The wait of one access more, at an entry of the list.
fn more(waits: &[u16], w: Spent) -> Spent
    requires few { w.clocks < 2 ^ 62 }
    requires within { w.position < length waits.now }
    ensures value { result ≡ more_of waits.now w }
    ensures few { result.clocks < w.clocks + 65_536 }
    ensures within { result.position < length waits.now }
{
    let position = w.position;
    Spent {
        clocks: w.clocks + (waits[position] as u64),
        position: next_position(waits, position),
    }
}

fn more_if(waits: &[u16], w: Spent, b: bool) -> Spent
    requires few { w.clocks < 2 ^ 62 }
    requires within { w.position < length waits.now }
    ensures value { result ≡ cond b (more_of waits.now w) w }
    ensures few { result.clocks < w.clocks + 65_536 }
    ensures within { result.position < length waits.now }
{
    if b {
        return more(waits, w);
    }
    w
}

// One instruction more: its cost, and the waits for its fetch, A, B and store to memory.
pub fn clocked(waits: &[u16], w: Spent, oa: Operand, ob: Operand, stored: bool) -> Spent
    requires few { w.clocks < 2 ^ 61 }
    requires fits { position_fits waits.now w.position ≡ true }
    ensures { result ≡ spent_of waits.now w oa ob stored }
{
    let mem_a = in_memory(oa);
    let mem_b = in_memory(ob);
    let position = w.position;
    let clocks = w.clocks + cost(mem_a, mem_b, stored);
    let before = Spent { clocks, position };
    // No entry there: the list is empty, and no access waits. One test for all four is quicker.
    if waits.len() <= position {
        return before;
    }
    let fetched = more(waits, before);
    let with_a = more_if(waits, fetched, mem_a);
    let with_b = more_if(waits, with_a, mem_b);
    more_if(waits, with_b, stored & mem_b)
}
