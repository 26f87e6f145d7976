// Clocks with resets: for each reset the clocks before it and then its own, and last the clocks after the last reset. The loop over the clocks
// knows no reset, so that resets cost a run without them nothing, and a machine that is stuck or halted is at once at the next reset. The state is taken apart once for
// all of them: put together again before each reset, it would cost a short run more than its clocks.
ghost use Rattle.std.specs.Prelude.{◌≡◌};
ghost use Rattle.model.specs.Board.{board_with};
ghost use Rattle.model.specs.GateMachine.{gate, gate_run};
ghost use Rattle.model.specs.Refusals.{gate_verdict};
ghost use Rattle.model.specs.Agreement.{gate_from};
ghost use Rattle.gate_machine.specs.Resets.{next_reset, ResetLatches};

use super::machine::run_clocks;
use super::parts::{latches_of, state_of};
use gate_rows::Latches;
use model::GateState;

#[derive(Clone, Copy)]
pub struct GateEnd {
    pub state: GateState,
    pub finished: u64,
}

// What a reset does beside r0: row 0, and a begun access dropped.
fn reset(s: Latches) -> Latches
    ensures { ResetLatches s result }
{
    Latches {
        row: 0,
        begun: false,
        left: 0,
        ..s
    }
}

// The number at place j of the reset list where there is one below the run's clocks, else the run's end.
fn next_reset(resets: &[u64], j: usize, clocks: u64) -> u64
    ensures { result ≡ next_reset resets.now j clocks }
{
    resets.get(j).copied().unwrap_or(clocks).min(clocks)
}

// All the clocks, with reset held on those in the list. In the loop `done` clocks are done, and the resets before place j. The clocks after
// the last reset take the same call as those before: with a second call `run_clocks` is no part of the loop, and a reset costs three times as much.
pub fn run_resets(
    memory: &mut [u32],
    bottom: u32,
    waits: &[u16],
    resets: &[u64],
    start: GateState,
    clocks: u64,
) -> GateEnd
    requires { gate_verdict memory.old (board_with bottom waits.now) resets.now start ≡ Ok tt }
    ensures { gate result.state memory.new result.finished ≡ gate_run (board_with bottom waits.now) resets.now clocks (gate_from start memory.old) }
{
    let mut regs = start.regs;
    let mut s = latches_of(start);
    let mut finished: u64 = 0;
    let mut done: u64 = 0;
    for j in 0..=resets.len() {
        let until = next_reset(resets, j, clocks);
        let e = run_clocks(s, &mut regs, memory, bottom, waits, until - done);
        finished += e.finished;
        s = e.latches;
        if clocks <= until {
            break;
        }
        regs[0] = 0;
        s = reset(s);
        done = until + 1;
    }
    GateEnd {
        state: state_of(regs, s),
        finished,
    }
}
