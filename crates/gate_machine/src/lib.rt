// The gate machine: a run of clocks.
#![tactic(auto)]

mod access;
mod machine;
mod parts;
mod resets;

ghost use Rattle.model.specs.Board.{board_with};
ghost use Rattle.gate_machine.specs.Calls.{GateRuns};

use model::{GateState, Refusal};
use resets::run_resets;
use verdicts::gate_verdict;

// outcome: how many instructions finished, or why the run was turned down.
#[derive(Clone, Copy)]
pub struct GateResult {
    pub outcome: Result<u64, Refusal>,
    pub state: GateState,
}

// All the clocks that are asked for, with reset held on those in the list, unless the call is turned down.
pub fn run(
    memory: &mut [u32],
    bottom: u32,
    waits: &[u16],
    resets: &[u64],
    start: GateState,
    clocks: u64,
) -> GateResult
    ensures { GateRuns memory.old (board_with bottom waits.now) resets.now start clocks memory.new result }
{
    match gate_verdict(&*memory, bottom, waits, resets, start) {
        Err(why) => GateResult {
            outcome: Err(why),
            state: start,
        },
        Ok(()) => {
            let end = run_resets(memory, bottom, waits, resets, start, clocks);
            let state = end.state;
            GateResult {
                outcome: Ok(end.finished),
                state,
            }
        }
    }
}
