// What a call of the host library starts from, read from lent words: specs/Layout.antt has their layout.
#![tactic(auto)]

mod formed;
mod reading;

ghost use Rattle.std.specs.Prelude.{◌≡◌};
ghost use Rattle.host_reading.specs.Layout.{machine_lent, state_lent};

use formed::lent_formed;
use model::{GateState, Machine};
use reading::{machine_in, state_in};

pub const MACHINE_SIZE: usize = 12;

pub const STATE_SIZE: usize = 21;

// The places of a file in a list of files.
pub const FILE_SIZE: usize = 4;

// The result's places of a run and of a traverse.
pub const THREE_PLACES: usize = 3;

// The result's places of a file run and of a read of an image.
pub const TWO_PLACES: usize = 2;

// The result's place of every other call.
pub const ONE_PLACE: usize = 1;

// A machine, where what is lent has the layout's lengths.
pub fn machine_lent(words: &[u32], places: usize, due: usize) -> Option<Machine>
    ensures { result ≡ machine_lent words.now places due }
{
    if lent_formed(MACHINE_SIZE, due, words.len(), places) {
        Some(machine_in(words))
    } else {
        None
    }
}

// A gate state, likewise. One function over both would take the reading, which asks for so many words, as a closure: longer than the two.
pub fn state_lent(words: &[u32], places: usize) -> Option<GateState>
    ensures { result ≡ state_lent words.now places }
{
    if lent_formed(STATE_SIZE, ONE_PLACE, words.len(), places) {
        Some(state_in(words))
    } else {
        None
    }
}
