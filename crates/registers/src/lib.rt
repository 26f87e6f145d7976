// An operand's register: its word, a store into it, its steps before and after the access; the program counter's step. Leaves that both
// engines use.
#![tactic(auto)]

ghost use Rattle.std.specs.Prelude.{◌≡◌};
ghost use Rattle.model.specs.Words.{inc};
ghost use Rattle.model.specs.Operands.{register_of, stepped, step_down, step_up, register_word, set_register};

use model::Operand;

// Only the low three bits of a register's number count.
fn register_of(o: Operand) -> u8
    ensures { result ≡ register_of o }
{
    match o {
        Operand::Direct(r) | Operand::Indirect(r) | Operand::Before(r) | Operand::After(r) => r % 8,
    }
}

pub fn register_word(o: Operand, regs: &[u32; 8]) -> u32
    ensures { result ≡ register_word o regs.now }
{
    let at = register_of(o) as usize;
    regs[at]
}

pub fn set_register(o: Operand, x: u32, regs: &mut [u32; 8])
    ensures { regs.new ≡ set_register o x regs.old }
{
    let i = register_of(o) as usize;
    regs[i] = x;
}

// The program counter's step after a fetch.
pub fn step_pc(regs: &mut [u32; 8])
    ensures { regs.new ≡ stepped inc 0 regs.old }
{
    regs[0] = regs[0].wrapping_add(1);
}

// Before the access: mode 2.
pub fn step_down(o: Operand, regs: &mut [u32; 8])
    ensures { regs.new ≡ step_down o regs.old }
{
    if let Operand::Before(r) = o {
        let i = (r % 8) as usize;
        regs[i] = regs[i].wrapping_sub(1);
    }
}

// After the access: mode 3.
pub fn step_up(o: Operand, regs: &mut [u32; 8])
    ensures { regs.new ≡ step_up o regs.old }
{
    if let Operand::After(r) = o {
        let i = (r % 8) as usize;
        regs[i] = regs[i].wrapping_add(1);
    }
}
