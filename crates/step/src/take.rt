// An operand, taken: its register stepped down, its register's word, its value.
ghost use Rattle.std.specs.Prelude.{◌≡◌};
ghost use Rattle.step.specs.Steps.{taken_of, Takes};

use model::Operand;
use registers::{register_word, set_register, step_down};

// Its register's word, its value.
#[derive(Clone, Copy)]
pub struct Taken {
    pub word: u32,
    pub value: u32,
}

// None where what the operand addresses is absent.
fn look(o: Operand, regs: &[u32; 8], memory: &[u32]) -> Option<Taken>
    ensures { result ≡ taken_of o regs.now memory.now }
{
    let word = register_word(o, regs);
    let value = match o {
        Operand::Direct(_) => word,
        Operand::Indirect(_) | Operand::Before(_) | Operand::After(_) => {
            *memory.get(word as usize)?
        }
    };
    Some(Taken { word, value })
}

// Steps an operand's register down and takes the operand. Where what it addresses is absent, the register is put back.
pub fn take(o: Operand, regs: &mut [u32; 8], memory: &[u32]) -> Option<Taken>
    ensures { Takes o regs.old memory.now regs.new result }
{
    let old = register_word(o, &*regs);
    step_down(o, regs);
    let t = look(o, &*regs, memory);
    if t.is_none() {
        set_register(o, old, regs);
    }
    t
}
