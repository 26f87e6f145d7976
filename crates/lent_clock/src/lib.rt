// One clock of the gate machine on a borrowed state.
#![tactic(auto)]

ghost use Rattle.std.specs.Prelude.{[]};
ghost use Rattle.model.specs.Board.{board_with};
ghost use Rattle.gate_machine.specs.Calls.{GateRuns};
ghost use Rattle.lent_clock.specs.Calls.{LentClock};

use gate_machine::{GateResult, run};
use model::{GateState, Refusal};

// A run of one clock.
fn clock(memory: &mut [u32], bottom: u32, waits: &[u16], state: GateState) -> GateResult
    ensures { GateRuns memory.old (board_with bottom waits.now) [] state 1 memory.new result }
{
    let no_resets: [u64; 0] = [];
    run(memory, bottom, waits, &no_resets, state, 1)
}

// One clock on a borrowed state: copied out, clocked by value, stored.
pub fn clock_lent(
    memory: &mut [u32],
    bottom: u32,
    waits: &[u16],
    state: &mut GateState,
) -> Result<u64, Refusal>
    ensures { LentClock memory.old (board_with bottom waits.now) state.old memory.new state.new result }
{
    let s = *state;
    let r = clock(memory, bottom, waits, s);
    *state = r.state;
    r.outcome
}

// The same for callers that hold the state by value: it is lent for the clock. Both are public, and the theorem of the halted machine is on the former.
pub fn clock_once(
    memory: &mut [u32],
    bottom: u32,
    waits: &[u16],
    mut state: GateState,
) -> GateResult
    ensures { LentClock memory.old (board_with bottom waits.now) state memory.new result.state result.outcome }
{
    let outcome = clock_lent(memory, bottom, waits, &mut state);
    GateResult { outcome, state }
}
