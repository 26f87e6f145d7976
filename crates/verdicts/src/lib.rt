// The first reason to turn down a run, a file run and a gate run, in the papers' order.
#![tactic(auto)]

mod gate_state;
mod rising;

ghost use Rattle.std.specs.Prelude.{◌≡◌};
ghost use Rattle.model.specs.Board.{board_with};
ghost use Rattle.model.specs.Refusals.{bottom_fits, waits_fit, resets_fit, start_fits, state_fits, run_verdict, file_verdict, gate_verdict};

use gate_state::access_formed;
use model::{GateState, Refusal};
use refusals::{demand, memory_fits};
use rising::rise;
use step_table::LAST_ROW;
use wait_list::position_fits;

// The most entries of a wait list.
const MOST_WAITS: usize = 65_536;

// Reason 21.
fn bottom_fits(memory: &[u32], bottom: u32) -> Result<(), Refusal>
    ensures { result ≡ bottom_fits memory.now bottom }
{
    demand(bottom as usize <= memory.len(), Refusal::BottomTooHigh)
}

// Reason 3.
fn waits_fit(waits: &[u16]) -> Result<(), Refusal>
    ensures { result ≡ waits_fit waits.now }
{
    demand(waits.len() <= MOST_WAITS, Refusal::LongWaitList)
}

// Reason 22.
fn resets_fit(resets: &[u64]) -> Result<(), Refusal>
    ensures { result ≡ resets_fit resets.now }
{
    demand(rise(resets), Refusal::ResetsNotRising)
}

// Reason 4, of the list position that a run of the interpreter starts at.
fn start_fits(waits: &[u16], position: u32) -> Result<(), Refusal>
    ensures { result ≡ start_fits waits.now position }
{
    demand(
        position_fits(waits, position as usize),
        Refusal::BadGateState,
    )
}

// Reason 4, of a gate state.
fn state_fits(waits: &[u16], s: GateState) -> Result<(), Refusal>
    ensures { result ≡ state_fits waits.now s }
{
    demand(
        (s.row <= LAST_ROW) & position_fits(waits, s.position as usize) & access_formed(s),
        Refusal::BadGateState,
    )
}

#[tactic(auto, unfolding(model::specs::Refusals::run_verdict))]
pub fn run_verdict(memory: &[u32], bottom: u32, waits: &[u16], position: u32) -> Result<(), Refusal>
    ensures { result ≡ run_verdict memory.now (board_with bottom waits.now) position }
{
    // 1 and 2; 21; 3; 4.
    memory_fits(memory)?;
    bottom_fits(memory, bottom)?;
    waits_fit(waits)?;
    start_fits(waits, position)
}

// A file run's reasons, with which those of a traverse begin.
#[tactic(auto, unfolding(model::specs::Refusals::file_verdict))]
pub fn file_verdict(memory: &[u32], bottom: u32) -> Result<(), Refusal>
    ensures { result ≡ file_verdict memory.now bottom }
{
    // 1 and 2; 21.
    memory_fits(memory)?;
    bottom_fits(memory, bottom)
}

#[tactic(auto, unfolding(model::specs::Refusals::gate_verdict))]
pub fn gate_verdict(
    memory: &[u32],
    bottom: u32,
    waits: &[u16],
    resets: &[u64],
    s: GateState,
) -> Result<(), Refusal>
    ensures { result ≡ gate_verdict memory.now (board_with bottom waits.now) resets.now s }
{
    // 1 and 2; 21; 3; 22; 4.
    memory_fits(memory)?;
    bottom_fits(memory, bottom)?;
    waits_fit(waits)?;
    resets_fit(resets)?;
    state_fits(waits, s)
}
