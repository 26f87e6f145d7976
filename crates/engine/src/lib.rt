// The loop that every run of whole instructions shares. One loop with one call of the step, waits and journal in it: a second one would cost both their
// speed.
#![tactic(auto)]

mod clocks;

ghost use Rattle.std.specs.Prelude.{◌≡◌, true, false, not, ◌&&◌};
ghost use Rattle.model.specs.declared.Ending.TheVariants.{Finished};
ghost use Rattle.model.specs.Interpreter.{goes_on};
ghost use Rattle.model.specs.Board.{board_with};
ghost use Rattle.model.specs.Packed.{packed_machine};
ghost use Rattle.engine.specs.Clocks.{begins_at};
ghost use Rattle.engine.specs.Engine.{ended_at, EngineEnds};

use clocks::{Spent, begins_at, clocked};
use model::{Ending, Machine};
use packed_flags::{packed, unpacked};
use step::{goes_on, step};

// A run at its end: whether it stopped because the journal is full, and if not, how it ended; its position in the wait list and the number of the
// journal's pairs. `full` is no variant of the ending: a run without a journal answers by `ending` alone, and would have to rule it out.
#[derive(Clone, Copy)]
pub struct Ended {
    pub full: bool,
    pub ending: Ending,
    pub machine: Machine,
    pub position: usize,
    pub ran: u32,
    pub clocks: u64,
    pub pairs: usize,
}

impl Ended {
    // Whether all instructions ran, and the journal had room for their stores.
    pub fn finished(&self) -> bool
        ensures { result ≡ (not self.now.full && goes_on self.now.ending) }
    {
        !self.full & goes_on(self.ending)
    }
}

// The loop's locals put together.
fn run_end(
    ending: Ending,
    regs: [u32; 8],
    flags: u32,
    spent: Spent,
    ran: u32,
    pairs: usize,
) -> Ended
    ensures { result ≡ ended_at false ending (packed_machine regs flags) spent.position ran spent.clocks pairs }
{
    let flags = unpacked(flags);
    Ended {
        full: false,
        ending,
        machine: Machine { regs, flags },
        position: spent.position,
        ran,
        clocks: spent.clocks,
        pairs,
    }
}

// The same where the journal is full: the registers have gone on, so the start's machine stands for them.
fn full_end(start: Machine, spent: Spent, ran: u32, pairs: usize) -> Ended
    ensures { result ≡ ended_at true Finished start spent.position ran spent.clocks pairs }
{
    Ended {
        full: true,
        ending: Ending::Finished,
        machine: start,
        position: spent.position,
        ran,
        clocks: spent.clocks,
        pairs,
    }
}

// Up to `count` instructions, from a position in the wait list, with a journal of some pairs and the map that tells them. Callers that want no
// journal lend no places and a map of no words.
pub fn engine(
    memory: &mut [u32],
    bottom: u32,
    waits: &[u16],
    from: u32,
    journal: &mut [u32],
    map: &mut [u32],
    noted: usize,
    start: Machine,
    count: u32,
) -> Ended
    ensures { EngineEnds memory.old (board_with bottom waits.now) (begins_at waits.now from) journal.old map.old noted start count memory.new journal.new map.new result }
{
    let mut regs = start.regs;
    let mut flags = packed(start.flags);
    let mut spent = Spent {
        clocks: 0,
        position: begins_at(waits, from),
    };
    let mut pairs = noted;
    for i in 0..count {
        let s = match step(&mut regs, memory, bottom, journal, map, &mut pairs, flags) {
            Err(ending) => return run_end(ending, regs, flags, spent, i, pairs),
            Ok(s) => s,
        };
        if s.full {
            return full_end(start, spent, i, pairs);
        }
        spent = clocked(waits, spent, s.oa, s.ob, s.stored);
        flags = s.flags;
    }
    run_end(Ending::Finished, regs, flags, spent, count, pairs)
}
