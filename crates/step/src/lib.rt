// One instruction of the machine, in the order (i) to (vi) of document 01.
#![tactic(auto)]

mod fetch;
mod finish;
mod keep;
mod put;
mod take;
mod unit;

ghost use Rattle.std.specs.Prelude.{◌≡◌};
ghost use Rattle.model.specs.Interpreter.{goes_on};
ghost use Rattle.step.specs.Steps.{Steps};

use fetch::fetch;
use finish::finish;
use model::{Ending, Operand};

// What one instruction leaves: the flags, packed; its operands as decoded and whether its result was stored, which decide its clocks and
// accesses; whether the journal had no room for its store. Where it had none, memory and journal are as before, and the registers have gone on.
#[derive(Clone, Copy)]
pub struct Stepped {
    pub flags: u32,
    pub oa: Operand,
    pub ob: Operand,
    pub stored: bool,
    pub full: bool,
}

// Whether a run that ended so goes on with the next instruction.
pub fn goes_on(ending: Ending) -> bool
    ensures { result ≡ goes_on ending }
{
    matches!(ending, Ending::Finished)
}

// The pair of a store that can alter memory is noted where its address has none yet: the journal's pairs are counted in `pairs`, and the map tells
// them. A run without a journal lends a map of no words. Where the instruction does not run, the ending says why, and nothing has changed.
pub fn step(
    regs: &mut [u32; 8],
    memory: &mut [u32],
    bottom: u32,
    journal: &mut [u32],
    map: &mut [u32],
    pairs: &mut usize,
    flags: u32,
) -> Result<Stepped, Ending>
    ensures { Steps regs.old memory.old bottom journal.old map.old pairs.old flags regs.new memory.new journal.new map.new pairs.new result }
{
    let f = fetch(regs, &*memory)?;
    Ok(finish(regs, memory, bottom, journal, map, pairs, flags, f))
}
