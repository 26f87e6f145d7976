// The work of a row.
ghost use Rattle.std.specs.Prelude.{◌≡◌, cond};
ghost use Rattle.model.specs.GateMachine.{with_row, with_instruction, with_a, with_b, prepare};
ghost use Rattle.gate_rows.specs.Work.{state_of, Becomes, read_row, Works};

use super::compute::compute;
use super::latches::Latches;
use model::Operand;
use operands::{is_instruction, load, operand_a, operand_b, store_above};
use registers::{register_word, set_register, step_down, step_pc, step_up};
use step_table::Step;

// Latches the word that was read; where it is no instruction, the step's third row is next.
fn read_instruction(s: Latches, word: u32, step: Step) -> Latches
    ensures { Becomes s (λ t. with_row (read_row step word) (with_instruction word t)) result }
{
    if is_instruction(word) {
        return s.with_instruction(word, step.memory);
    }
    s.with_instruction(word, step.skipped)
}

// The register of A, or of B as the second operand, steps down; then its word is the address, or the operand where that is direct.
fn prepare(s: Latches, o: Operand, second: bool, regs: &mut [u32; 8], step: Step) -> Latches
    ensures { state_of regs.new result ≡ prepare o step.memory step.direct (cond second with_b with_a) (state_of regs.old s) }
{
    step_down(o, regs);
    let word = register_word(o, &*regs);
    let addressed = match o {
        Operand::Direct(_) => false,
        Operand::Indirect(_) => true,
        Operand::Before(_) => true,
        Operand::After(_) => true,
    };
    if addressed {
        return s.with_address(word, step.memory);
    }
    if second {
        return s.with_b(word, step.direct);
    }
    s.with_a(word, step.direct)
}

// The work of the row that the machine is in, with its step of the table; past the table there is none.
pub fn work(s: Latches, step: Step, regs: &mut [u32; 8], memory: &mut [u32], bottom: u32) -> Latches
    ensures { Works bottom s step regs.old memory.old result regs.new memory.new }
{
    let word = s.instruction;
    let next = step.memory;
    // A row is a number, as in the words of a state that C lends, where those above 12 are refused in their turn.
    match s.row {
        0 => s.with_address(regs[0], next),
        1 => read_instruction(s, load(&*memory, s.address as usize), step),
        2 => {
            step_pc(regs);
            s.moved(next)
        }
        3 => prepare(s, operand_a(word), false, regs, step),
        4 => s.with_a(load(&*memory, s.address as usize), next),
        5 => prepare(s, operand_b(word), true, regs, step),
        6 => s.with_b(load(&*memory, s.address as usize), next),
        7 => compute(s, step),
        8 => {
            set_register(operand_b(word), s.result, regs);
            s.moved(next)
        }
        9 => {
            store_above(memory, bottom, s.address, s.result);
            s.moved(next)
        }
        10 => {
            step_up(operand_a(word), regs);
            s.moved(next)
        }
        11 => {
            step_up(operand_b(word), regs);
            s.moved(next)
        }
        12 => s.moved(next),
        _ => s,
    }
}
