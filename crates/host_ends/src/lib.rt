// What a call of the host library writes at its end, and the code that it returns. Nothing is written unless the call was carried out; a file run
// or a traverse that is undone, or whose journal was full, writes its result alone.
#![tactic(auto)]

mod codes;
mod places;

ghost use Rattle.std.specs.Prelude.{◌≡◌, cond, [], ◌∷◌};
ghost use Rattle.host_reading.specs.Layout.{machine_size};
ghost use Rattle.host_words.specs.Words.{machine_words, laid};
ghost use Rattle.host_calls.specs.Codes.{file_code, traverse_code, finishes, undone_files};
ghost use Rattle.host_ends.specs.Ends.{RunEnds, FileEnds, GateEnds, TraverseEnds, ReadEnds, WriteEnds};

pub use codes::MISFIT;
use codes::{DONE, JOURNAL_FULL, STOPPED, carried_out, run_code};
use gate_machine::GateResult;
use host_words::{put_machine, put_state};
use image::{LoadedImage, ReadResult};
use interpreter::{FileEnding, FileResult, RunResult};
use model::{Machine, Refusal};
use places::put_result;
use refusals::refusal_number;
use traverses::{TraverseEnding, TraverseResult};

pub fn end_run(r: RunResult, machine: &mut [u32], res: &mut [u64]) -> u32
    ensures { RunEnds r machine.old res.old machine.new res.new result }
{
    let answer = r.answer;
    let code = run_code(answer);
    if carried_out(code) {
        put_machine(r.machine, machine);
        put_result([r.ran as u64, r.clocks, r.position as u64], res);
    }
    code
}

// The code of a file run's ending; its machine is put where it finished.
fn end_file(ending: FileEnding, last: Machine, machine: &mut [u32]) -> u32
    ensures code { result ≡ file_code (Ok ending) }
    ensures parts { machine.new ≡ cond (finishes (file_code (Ok ending))) (laid machine_size (machine_words last) machine.old) machine.old }
{
    match ending {
        FileEnding::Finished => {
            put_machine(last, machine);
            DONE
        }
        FileEnding::Undone => STOPPED,
        FileEnding::Full => JOURNAL_FULL,
    }
}

pub fn end_file_run(r: FileResult, machine: &mut [u32], res: &mut [u64]) -> u32
    ensures { FileEnds r machine.old res.old machine.new res.new result }
{
    let answer = r.answer;
    match answer {
        Err(why) => refusal_number(why),
        Ok(ending) => {
            put_result([r.ran as u64, r.pairs as u64], res);
            end_file(ending, r.machine, machine)
        }
    }
}

pub fn end_gate_run(r: GateResult, state: &mut [u32], res: &mut [u64]) -> u32
    ensures { GateEnds r state.old res.old state.new res.new result }
{
    let outcome = r.outcome;
    match outcome {
        Err(why) => refusal_number(why),
        Ok(finished) => {
            put_state(r.state, state);
            put_result([finished], res);
            DONE
        }
    }
}

// The mask of the undone files, or the number of the file that the traverse came to; 0 where none was undone.
fn undone_files(ending: TraverseEnding) -> u64
    ensures { result ≡ undone_files (Ok ending) }
{
    match ending {
        TraverseEnding::Marked(files) => files,
        TraverseEnding::Finished => 0,
        TraverseEnding::Undone(file) | TraverseEnding::Full(file) => file as u64,
    }
}

// The code of a traverse's ending; its machine is put where the traverse was not taken back.
fn end_files(ending: TraverseEnding, last: Machine, machine: &mut [u32]) -> u32
    ensures code { result ≡ traverse_code (Ok ending) }
    ensures parts { machine.new ≡ cond (finishes (traverse_code (Ok ending))) (laid machine_size (machine_words last) machine.old) machine.old }
{
    match ending {
        TraverseEnding::Finished | TraverseEnding::Marked(_) => {
            put_machine(last, machine);
            DONE
        }
        TraverseEnding::Undone(_) => STOPPED,
        TraverseEnding::Full(_) => JOURNAL_FULL,
    }
}

// A traverse's places: its undone files, the instructions of the last file run, the journal's pairs.
fn traverse_places(ending: TraverseEnding, ran: u32, pairs: usize) -> [u64; 3]
    ensures { result ≡ undone_files (Ok ending) ∷ ran ∷ pairs ∷ [] }
{
    [undone_files(ending), ran as u64, pairs as u64]
}

pub fn end_traverse(r: TraverseResult, machine: &mut [u32], res: &mut [u64]) -> u32
    ensures { TraverseEnds r machine.old res.old machine.new res.new result }
{
    let answer = r.answer;
    match answer {
        Err(why) => refusal_number(why),
        Ok(ending) => {
            put_result(traverse_places(ending, r.ran, r.pairs), res);
            end_files(ending, r.machine, machine)
        }
    }
}

pub fn end_read(r: ReadResult, machine: &mut [u32], res: &mut [u64]) -> u32
    ensures { ReadEnds r machine.old res.old machine.new res.new result }
{
    let answer = r.answer;
    match answer {
        Err(why) => refusal_number(why),
        Ok(LoadedImage { words, version }) => {
            put_machine(r.machine, machine);
            put_result([words as u64, version as u64], res);
            DONE
        }
    }
}

pub fn end_write(r: Result<usize, Refusal>, res: &mut [u64]) -> u32
    ensures { WriteEnds r res.old res.new result }
{
    match r {
        Err(why) => refusal_number(why),
        Ok(size) => {
            put_result([size as u64], res);
            DONE
        }
    }
}
