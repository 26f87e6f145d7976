// The exported calls, for C, Rust and Python: numbers and slices alone. The crate host_reading has the layout of what is lent,
// host_calls the codes that are returned and what each call leaves.
#![tactic(auto)]

ghost use Rattle.std.specs.Prelude.{[]};
ghost use Rattle.host_calls.specs.Calls.{RunCall, FileCall, GateCall, TraverseCall, ReadCall, WriteCall};

use host_ends::{MISFIT, end_file_run, end_gate_run, end_read, end_run, end_traverse, end_write};
use host_reading::{FILE_SIZE, ONE_PLACE, THREE_PLACES, TWO_PLACES, machine_lent, state_lent};
use lent_clock::clock_once;

// A run of the interpreter from a position of its wait list. `res`: instructions that ran, clock total, list position after.
#[unsafe(no_mangle)]
pub extern "C" fn fm8502_run(
    memory: &mut [u32],
    bottom: u32,
    waits: &[u16],
    position: u32,
    machine: &mut [u32],
    count: u32,
    res: &mut [u64],
) -> u32
    ensures { RunCall memory.old bottom waits.now position machine.old count res.old memory.new machine.new res.new result }
{
    let Some(start) = machine_lent(&*machine, res.len(), THREE_PLACES) else {
        return MISFIT;
    };
    let r = interpreter::run(memory, bottom, waits, position, start, count);
    end_run(r, machine, res)
}

// A file run. `res`: instructions that ran, pairs in the journal.
#[unsafe(no_mangle)]
pub extern "C" fn fm8502_file_run(
    memory: &mut [u32],
    bottom: u32,
    journal: &mut [u32],
    machine: &mut [u32],
    count: u32,
    res: &mut [u64],
) -> u32
    ensures { FileCall memory.old bottom journal.old machine.old count res.old memory.new journal.new machine.new res.new result }
{
    let Some(start) = machine_lent(&*machine, res.len(), TWO_PLACES) else {
        return MISFIT;
    };
    let r = interpreter::file_run(memory, bottom, journal, start, count);
    end_file_run(r, machine, res)
}

// A gate run. `resets`: the clocks, by number from 0, on which reset is held. `res`: instructions finished.
#[unsafe(no_mangle)]
pub extern "C" fn fm8502_gate_run(
    memory: &mut [u32],
    bottom: u32,
    waits: &[u16],
    resets: &[u64],
    state: &mut [u32],
    clocks: u64,
    res: &mut [u64],
) -> u32
    ensures { GateCall memory.old bottom waits.now resets.now state.old clocks res.old memory.new state.new res.new result }
{
    let Some(start) = state_lent(&*state, res.len()) else {
        return MISFIT;
    };
    let r = gate_machine::run(memory, bottom, waits, resets, start, clocks);
    end_gate_run(r, state, res)
}

// One clock, on which reset is not held. `res`: instructions finished.
#[unsafe(no_mangle)]
pub extern "C" fn fm8502_clock(
    memory: &mut [u32],
    bottom: u32,
    waits: &[u16],
    state: &mut [u32],
    res: &mut [u64],
) -> u32
    ensures { GateCall memory.old bottom waits.now [] state.old 1 res.old memory.new state.new res.new result }
{
    let Some(start) = state_lent(&*state, res.len()) else {
        return MISFIT;
    };
    let r = clock_once(memory, bottom, waits, start);
    end_gate_run(r, state, res)
}

// A traverse. `files`: four places each; `words`: the words of all files. `res`: the mask of the undone files, or the number of the file that was
// undone; instructions that ran in the last file run; pairs in the journal.
#[unsafe(no_mangle)]
pub extern "C" fn fm8502_traverse(
    memory: &mut [u32],
    bottom: u32,
    journal: &mut [u32],
    words: &[u32],
    files: &[u32],
    machine: &mut [u32],
    version: u32,
    res: &mut [u64],
) -> u32
    ensures { TraverseCall memory.old bottom journal.old words.now files.now machine.old version res.old memory.new journal.new machine.new res.new result }
{
    if files.len() % FILE_SIZE != 0 {
        return MISFIT;
    }
    let Some(start) = machine_lent(&*machine, res.len(), THREE_PLACES) else {
        return MISFIT;
    };
    let r = traverse::traverse(memory, bottom, journal, words, files, start, version);
    end_traverse(r, machine, res)
}

// Reads an image: its words to the front of `memory`, its machine. `res`: the image's words, its version.
#[unsafe(no_mangle)]
pub extern "C" fn fm8502_image_read(
    bytes: &[u8],
    memory: &mut [u32],
    machine: &mut [u32],
    res: &mut [u64],
) -> u32
    ensures { ReadCall bytes.now memory.old machine.old res.old memory.new machine.new res.new result }
{
    let Some(_) = machine_lent(&*machine, res.len(), TWO_PLACES) else {
        return MISFIT;
    };
    let r = image_reader::read(bytes, memory);
    end_read(r, machine, res)
}

// Writes the image of a machine and its memory, as a version, to the front of `out`. `res`: the image's bytes.
#[unsafe(no_mangle)]
pub extern "C" fn fm8502_image_write(
    memory: &[u32],
    machine: &[u32],
    version: u32,
    out: &mut [u8],
    res: &mut [u64],
) -> u32
    ensures { WriteCall memory.now machine.now version out.old res.old out.new res.new result }
{
    let Some(start) = machine_lent(machine, res.len(), ONE_PLACE) else {
        return MISFIT;
    };
    let r = image_writer::write(memory, start, version, out);
    end_write(r, res)
}
