// The interpreter: runs of whole instructions with waits and clocks, and the file run with its undo journal.
#![tactic(auto)]

ghost use Rattle.std.specs.Prelude.{◌≡◌, cond, min};
ghost use Rattle.model.specs.Board.{board_with};
ghost use Rattle.model.specs.Journal.{room_in};
ghost use Rattle.journal.specs.Undo.{undone};
ghost use Rattle.interpreter.specs.Calls.{file_answer_of, Runs, FileRuns};
ghost use Rattle.interpreter.specs.Ends.{ended, FileEnds};

use engine::{Ended, engine};
use journal::undo;
use model::{Ending, Machine, Refusal};
use step::goes_on;
use verdicts::{file_verdict, run_verdict};

// answer: how the run ended, or why it was turned down; position: where the wait list goes on.
#[derive(Clone, Copy)]
pub struct RunResult {
    pub answer: Result<Ending, Refusal>,
    pub machine: Machine,
    pub ran: u32,
    pub clocks: u64,
    pub position: u32,
}

// Full: a store needed one address more than the journal has pairs.
#[derive(Clone, Copy, Debug, PartialEq, Eq)]
pub enum FileEnding {
    Finished,
    Undone,
    Full,
}

// answer: how the file run ended, or why it was turned down; pairs: how many pairs the journal holds.
#[derive(Clone, Copy)]
pub struct FileResult {
    pub answer: Result<FileEnding, Refusal>,
    pub machine: Machine,
    pub ran: u32,
    pub pairs: usize,
}

// Up to `count` instructions from `start`, with waits from a position of their list, on a memory with a fixed bottom.
pub fn run(
    memory: &mut [u32],
    bottom: u32,
    waits: &[u16],
    position: u32,
    start: Machine,
    count: u32,
) -> RunResult
    ensures { Runs memory.old (board_with bottom waits.now) position start count memory.new result }
{
    match run_verdict(&*memory, bottom, waits, position) {
        Err(why) => RunResult {
            answer: Err(why),
            machine: start,
            ran: 0,
            clocks: 0,
            position,
        },
        Ok(()) => {
            let mut none: [u32; 0] = [];
            let mut map: [u32; 0] = [];
            let e = engine(
                memory, bottom, waits, position, &mut none, &mut map, 0, start, count,
            );
            let machine = e.machine;
            let ending = e.ending;
            let ran = e.ran;
            let after = e.position as u32;
            RunResult {
                answer: Ok(ending),
                machine,
                ran,
                clocks: e.clocks,
                position: after,
            }
        }
    }
}

// How a file run ended.
pub fn file_ending(full: bool, ending: Ending) -> FileEnding
    ensures { result ≡ file_answer_of full ending }
{
    if full {
        return FileEnding::Full;
    }
    if goes_on(ending) {
        return FileEnding::Finished;
    }
    FileEnding::Undone
}

// The machine that a file leaves. Where it does not finish it is the start's, and its stores are taken back.
pub fn settle(memory: &mut [u32], journal: &[u32], start: Machine, e: Ended) -> Machine
    ensures machine { result ≡ cond (ended e) e.machine start }
    ensures words { memory.new ≡ cond (ended e) memory.old (undone (min e.pairs (room_in journal.now)) journal.now memory.old) }
{
    if e.finished() {
        return e.machine;
    }
    undo(memory, journal, e.pairs);
    start
}

// A file run that is not turned down.
fn file_end(memory: &mut [u32], journal: &[u32], start: Machine, e: Ended) -> FileResult
    ensures { FileEnds memory.old journal.now start e memory.new result }
{
    FileResult {
        answer: Ok(file_ending(e.full, e.ending)),
        machine: settle(memory, journal, start, e),
        ran: e.ran,
        pairs: e.pairs,
    }
}

// Up to `count` instructions from `start`, without waits; the first store to each address that can alter memory is journaled, and a run that
// stops before the end is undone.
pub fn file_run(
    memory: &mut [u32],
    bottom: u32,
    journal: &mut [u32],
    start: Machine,
    count: u32,
) -> FileResult
    ensures { FileRuns memory.old bottom journal.old start count memory.new journal.new result }
{
    match file_verdict(&*memory, bottom) {
        Err(why) => FileResult {
            answer: Err(why),
            machine: start,
            ran: 0,
            pairs: 0,
        },
        Ok(()) => {
            let none: [u16; 0] = [];
            let mut map: [u32; 49_184] = [0; 49_184];
            let e = engine(memory, bottom, &none, 0, journal, &mut map, 0, start, count);
            file_end(memory, &*journal, start, e)
        }
    }
}
