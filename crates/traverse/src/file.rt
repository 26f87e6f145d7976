// One file of a traverse: laid, entered and run, and taken back where it does not finish.
ghost use Rattle.std.specs.Prelude.{◌≡◌, set};
ghost use Rattle.model.specs.Interpreter.{machine_with};
ghost use Rattle.traverse.specs.Steps.{FileEnds, FileFits, Ends};

use super::lay::lay;
use engine::{Ended, engine};
use interpreter::{FileEnding, file_ending, settle};
use journal::undo;
use model::Machine;
use traverses::File;

// What a file leaves beside memory and journal: how it ended, the machine, the instructions that ran, and the journal's pairs.
#[derive(Clone, Copy)]
pub struct FileEnd {
    pub ending: FileEnding,
    pub machine: Machine,
    pub ran: u32,
    pub pairs: usize,
}

// A machine whose r0 is at an entry.
fn entered(m: Machine, entry: u32) -> Machine
    ensures { result ≡ machine_with (set m.regs 0 entry) m.flags }
{
    let mut regs = m.regs;
    regs[0] = entry;
    let flags = m.flags;
    Machine { regs, flags }
}

// A file at its end.
fn end(memory: &mut [u32], journal: &[u32], m: Machine, e: Ended) -> FileEnd
    ensures { Ends memory.old journal.now m e memory.new result }
{
    FileEnd {
        ending: file_ending(e.full, e.ending),
        machine: settle(memory, journal, m, e),
        ran: e.ran,
        pairs: e.pairs,
    }
}

// One file, after the journal's pairs so far. Where its words do not all fit, nothing runs.
pub fn one_file(
    memory: &mut [u32],
    bottom: u32,
    journal: &mut [u32],
    map: &mut [u32],
    pairs: usize,
    words: &[u32],
    f: File,
    m: Machine,
) -> FileEnd
    requires { FileFits map.old words.now f }
    ensures { FileEnds memory.old bottom journal.old map.old pairs words.now f m memory.new journal.new map.new result }
{
    let n = lay(memory, journal, map, pairs, words, f.place);
    if n.full {
        undo(memory, &*journal, n.pairs);
        return FileEnd {
            ending: FileEnding::Full,
            machine: m,
            ran: 0,
            pairs: n.pairs,
        };
    }
    let start = entered(m, f.entry);
    let none: [u16; 0] = [];
    let e = engine(
        memory, bottom, &none, 0, journal, map, n.pairs, start, f.count,
    );
    end(memory, &*journal, m, e)
}
