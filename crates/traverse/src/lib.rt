// A traverse: files laid and run one after the other on one memory, with an undo journal, under rule 1 or rule 2.
#![tactic(auto)]

mod file;
mod lay;
mod walk;

ghost use Rattle.std.specs.Prelude.{◌≡◌, cond, eqb};
ghost use Rattle.traverses.specs.declared.TraverseEnding.TheVariants.{Marked, Finished};
ghost use Rattle.traverses.specs.Files.{files_in};
ghost use Rattle.traverses.specs.Calls.{stopped_by, traverse_verdict, Traverses};

use file_list::{file_count, traverse_verdict};
use model::Machine;
use traverses::{TraverseEnding, TraverseResult};
use walk::{next, set_out};

// What a traverse answers that is not taken back.
fn ended(version: u32, undone: u64) -> TraverseEnding
    ensures { result ≡ cond (eqb version 1) (Marked undone) Finished }
{
    if version == 1 {
        return TraverseEnding::Marked(undone);
    }
    TraverseEnding::Finished
}

// The answer under rule 2 of a traverse that file i takes back.
fn stopped(full: bool, i: u32) -> TraverseEnding
    ensures { result ≡ stopped_by full i }
{
    if full {
        return TraverseEnding::Full(i);
    }
    TraverseEnding::Undone(i)
}

// All files. Under rule 2 the first that does not finish takes the traverse back: the journal that was taken back with it holds the pairs of the
// files before it too.
fn carry_out(
    memory: &mut [u32],
    bottom: u32,
    journal: &mut [u32],
    words: &[u32],
    files: &[u32],
    start: Machine,
    version: u32,
) -> TraverseResult
    requires { traverse_verdict memory.old bottom words.now (files_in files.now) version ≡ Ok tt }
    ensures { Traverses memory.old bottom journal.old words.now files.now start version memory.new journal.new result }
{
    let mut map: [u32; 49_184] = [0; 49_184];
    let mut w = set_out(start);
    for i in 0..file_count(files) {
        w = next(
            memory, bottom, journal, &mut map, words, files, version, i, w,
        );
        if (version != 1) & (w.undone != 0) {
            return TraverseResult {
                answer: Ok(stopped(w.full, i as u32)),
                machine: start,
                ran: w.ran,
                pairs: w.pairs,
            };
        }
    }
    let machine = w.machine;
    TraverseResult {
        answer: Ok(ended(version, w.undone)),
        machine,
        ran: w.ran,
        pairs: w.pairs,
    }
}

// Each file in turn from `start`: its words are laid and journaled, r0 is set to its entry, and it runs. An undone file goes back to before
// its words were laid; under rule 2 it takes back the traverse.
pub fn traverse(
    memory: &mut [u32],
    bottom: u32,
    journal: &mut [u32],
    words: &[u32],
    files: &[u32],
    start: Machine,
    version: u32,
) -> TraverseResult
    ensures { Traverses memory.old bottom journal.old words.now files.now start version memory.new journal.new result }
{
    match traverse_verdict(&*memory, bottom, words, files, version) {
        Err(why) => TraverseResult {
            answer: Err(why),
            machine: start,
            ran: 0,
            pairs: 0,
        },
        Ok(()) => carry_out(memory, bottom, journal, words, files, start, version),
    }
}
