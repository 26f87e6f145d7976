// One clock on borrowed registers, and the loop over the clocks, which alone calls it.
ghost use Rattle.std.specs.Prelude.{◌≡◌, [], ◌≤◌, length};
ghost use Rattle.model.specs.Board.{board_with};
ghost use Rattle.model.specs.GateMachine.{gate, gate_run};
ghost use Rattle.model.specs.Refusals.{most_waits, gate_verdict};
ghost use Rattle.model.specs.Agreement.{gate_from};
ghost use Rattle.step_table.specs.Table.{step_of};
ghost use Rattle.gate_rows.specs.Work.{state_of};
ghost use Rattle.gate_machine.specs.Clock.{Ticks, Stands};

use super::access::granted;
use super::parts::each_latch;
use gate_rows::{Latches, work};
use step_table::{Mark, Step, steps};

// Stuck: no further clock changes anything, unless reset is held on it.
#[derive(Clone, Copy)]
struct Ticked {
    latches: Latches,
    finished: bool,
    stuck: bool,
}

// What clocks without resets leave beside registers and memory.
#[derive(Clone, Copy)]
pub struct Clocked {
    pub latches: Latches,
    pub finished: u64,
}

// The step is the one of the state's row.
fn tick(
    s: Latches,
    step: Step,
    regs: &mut [u32; 8],
    memory: &mut [u32],
    bottom: u32,
    waits: &[u16],
) -> Ticked
    requires { (step ≡ step_of s.row) × (length waits.now ≤ most_waits) }
    ensures { Ticks (board_with bottom waits.now) (state_of regs.old s) memory.old (state_of regs.new result.latches) result.finished memory.new × Stands (board_with bottom waits.now) (state_of regs.new result.latches) memory.new result.stuck }
{
    let grant = granted(s, step.mark == Mark::Access, memory.len(), waits);
    let t = Latches {
        position: grant.position,
        left: grant.left,
        begun: grant.begun,
        ..s
    };
    if !grant.works {
        return Ticked {
            latches: t,
            finished: false,
            stuck: grant.stuck,
        };
    }
    let u = work(t, step, regs, memory, bottom);
    Ticked {
        latches: u,
        finished: step.mark == Mark::Finishes,
        stuck: step.mark == Mark::Stays,
    }
}

// Clocks without resets, on lent registers. The step table and the registers stay in place: a clock copies neither.
pub fn run_clocks(
    start: Latches,
    regs: &mut [u32; 8],
    memory: &mut [u32],
    bottom: u32,
    waits: &[u16],
    clocks: u64,
) -> Clocked
    requires { gate_verdict memory.old (board_with bottom waits.now) [] (state_of regs.old start) ≡ Ok tt }
    ensures { gate (state_of regs.new result.latches) memory.new result.finished ≡ gate_run (board_with bottom waits.now) [] clocks (gate_from (state_of regs.old start) memory.old) }
{
    let table = steps();
    let mut s = each_latch(start);
    let mut finished: u64 = 0;
    for _ in 0..clocks {
        let t = tick(s, table[s.row as usize], regs, memory, bottom, waits);
        s = t.latches;
        finished += t.finished as u64;
        if t.stuck {
            break;
        }
    }
    Clocked {
        latches: s,
        finished,
    }
}
