// A machine and a gate state, written to lent words: specs/Words.antt says which.
#![tactic(auto)]

mod words;

ghost use Rattle.std.specs.Prelude.{◌≡◌};
ghost use Rattle.host_reading.specs.Layout.{machine_size, state_size};
ghost use Rattle.host_words.specs.Words.{machine_words, state_words, laid};

use host_reading::{MACHINE_SIZE, STATE_SIZE};
use model::{GateState, Machine};
use words::{latch_words, machine_words};

pub fn put_machine(m: Machine, machine: &mut [u32])
    ensures { machine.new ≡ laid machine_size (machine_words m) machine.old }
{
    if machine.len() == MACHINE_SIZE {
        machine.copy_from_slice(&machine_words(m));
    }
}

pub fn put_state(s: GateState, state: &mut [u32])
    ensures { state.new ≡ laid state_size (state_words s) state.old }
{
    if state.len() == STATE_SIZE {
        let GateState { regs, flags, .. } = s;
        state[..MACHINE_SIZE].copy_from_slice(&machine_words(Machine { regs, flags }));
        state[MACHINE_SIZE..].copy_from_slice(&latch_words(s));
    }
}
