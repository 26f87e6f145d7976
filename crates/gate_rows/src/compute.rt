// Row 7: the arithmetic unit of gates, the flags, and where the result goes.
ghost use Rattle.std.specs.Prelude.{◌≡◌, cond, []};
ghost use Rattle.model.specs.Alu.{alu};
ghost use Rattle.model.specs.GateMachine.{with_row, compute};
ghost use Rattle.gate_rows.specs.Work.{Becomes, store_row};

use super::latches::Latches;
use arithmetic::{AluOut, answer};
use effects::{flags_after_apart, is_move, stores, unit_operation};
use gates::gate_unit;
use model::Flags;
use operands::{in_memory, operand_b};
use packed_flags::packed;
use step_table::Step;

// The arithmetic unit of gates, told by the instruction word. A move goes past the network, for its speed: operation 0 gives the same. The
// unit on words is not called here: with a second caller it is no part of the interpreter's loop any more, which costs that a fifth.
fn unit_of(word: u32, flags: Flags, a: u32, b: u32) -> AluOut
    ensures { result ≡ alu word flags a b }
{
    if is_move(word) {
        return answer(a, false, false);
    }
    gate_unit(unit_operation(word), a, b, flags.carry)
}

// One of a step's three next rows.
fn chosen(stored: bool, mem: bool, step: Step) -> u8
    ensures { result ≡ cond stored (cond mem step.memory step.direct) step.skipped }
{
    if !stored {
        step.skipped
    } else if mem {
        step.memory
    } else {
        step.direct
    }
}

// Storing is decided on the flags before the instruction.
pub fn compute(s: Latches, step: Step) -> Latches
    ensures { Becomes s (λ t. with_row (store_row step t) (compute [] t)) result }
{
    let word = s.instruction;
    let flags = s.flags;
    let out = unit_of(word, flags, s.a, s.b);
    let after = flags_after_apart(word, flags, out);
    let next = chosen(
        stores(word, packed(flags)),
        in_memory(operand_b(word)),
        step,
    );
    Latches {
        flags: after,
        result: out.result,
        row: next,
        ..s
    }
}
