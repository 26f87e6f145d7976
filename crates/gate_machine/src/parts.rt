// A gate state taken apart into registers and latches, and put together again: functions and no `From`, since both types are other crates'.
ghost use Rattle.std.specs.Prelude.{◌≡◌};
ghost use Rattle.gate_rows.specs.Work.{state_of};

use gate_rows::Latches;
use model::GateState;

// A state apart from its registers.
pub fn latches_of(s: GateState) -> Latches
    ensures { state_of s.regs result ≡ s }
{
    let flags = s.flags;
    Latches {
        flags,
        instruction: s.instruction,
        address: s.address,
        a: s.a,
        b: s.b,
        result: s.result,
        position: s.position,
        left: s.left,
        row: s.row,
        begun: s.begun,
    }
}

// The same latches, field by field: copied as a whole, two of them would travel as one word, to be taken apart on each clock.
pub fn each_latch(s: Latches) -> Latches
    ensures { result ≡ s }
{
    let flags = s.flags;
    Latches {
        flags,
        instruction: s.instruction,
        address: s.address,
        a: s.a,
        b: s.b,
        result: s.result,
        position: s.position,
        left: s.left,
        row: s.row,
        begun: s.begun,
    }
}

// Registers and latches together again.
pub fn state_of(regs: [u32; 8], s: Latches) -> GateState
    ensures { result ≡ state_of regs s }
{
    let flags = s.flags;
    GateState {
        regs,
        flags,
        row: s.row,
        instruction: s.instruction,
        address: s.address,
        a: s.a,
        b: s.b,
        result: s.result,
        position: s.position,
        begun: s.begun,
        left: s.left,
    }
}
