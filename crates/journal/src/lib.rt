// Taking a run's stores to memory back, from its journal of addresses and former words.
#![tactic(auto)]

ghost use Rattle.std.specs.Prelude.{◌≡◌, min};
ghost use Rattle.model.specs.Journal.{room_in};
ghost use Rattle.journal.specs.Undo.{undone};

use operands::store;

// Puts the former words back, the last pair first.
pub fn undo(memory: &mut [u32], journal: &[u32], pairs: usize)
    ensures { memory.new ≡ undone (min pairs (room_in journal.now)) journal.now memory.old }
{
    for k in (0..pairs.min(journal.len() / 2)).rev() {
        store(memory, journal[2 * k] as usize, journal[2 * k + 1]);
    }
}
