// The instruction and its operands, taken: (i) to (iii).
ghost use Rattle.std.specs.Prelude.{◌≡◌};
ghost use Rattle.step.specs.Steps.{Fetches};

use super::take::take;
use model::{Ending, Operand};
use operands::{is_instruction, operand_a, operand_b};
use registers::{register_word, set_register, step_pc};

// An instruction's word, its operands A and B with their values, and the address of a B in memory.
#[derive(Clone, Copy)]
pub struct Fetched {
    pub word: u32,
    pub oa: Operand,
    pub ob: Operand,
    pub a: u32,
    pub b: u32,
    pub address: u32,
}

// Where an address is absent the registers are put back, the last step first.
pub fn fetch(regs: &mut [u32; 8], memory: &[u32]) -> Result<Fetched, Ending>
    ensures { Fetches regs.old memory.now regs.new result }
{
    let pc = regs[0];
    let Some(&word) = memory.get(pc as usize) else {
        return Err(Ending::Outside);
    };
    if !is_instruction(word) {
        return Err(Ending::NoInstruction);
    }
    step_pc(regs);
    let oa = operand_a(word);
    let old_a = register_word(oa, &*regs);
    let Some(a) = take(oa, regs, memory) else {
        regs[0] = pc;
        return Err(Ending::Outside);
    };
    let ob = operand_b(word);
    let Some(b) = take(ob, regs, memory) else {
        set_register(oa, old_a, regs);
        regs[0] = pc;
        return Err(Ending::Outside);
    };
    Ok(Fetched {
        word,
        oa,
        ob,
        a: a.value,
        b: b.value,
        address: b.word,
    })
}
