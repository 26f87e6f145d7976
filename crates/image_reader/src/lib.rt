// Reads images of the FM8502.
#![tactic(auto)]

mod bytes;
mod checks;
mod loads;

ghost use Rattle.image.specs.Calls.{Reads};

use checks::{image_verdict, image_version, word_count};
use image::{LoadedImage, ReadResult};
use loads::{cleared_machine, load_memory, machine_at};

// Reads an image: its words to the front of `memory`, its machine and version in the result. Everything is checked before a word is stored.
pub fn read(bytes: &[u8], memory: &mut [u32]) -> ReadResult
    ensures { Reads bytes.now memory.old memory.new result }
{
    match image_verdict(bytes, memory.len()) {
        Err(why) => ReadResult {
            answer: Err(why),
            machine: cleared_machine(),
        },
        Ok(()) => {
            let words = word_count(bytes);
            let version = image_version(bytes);
            load_memory(bytes, memory, words as usize);
            ReadResult {
                answer: Ok(LoadedImage { words, version }),
                machine: machine_at(bytes),
            }
        }
    }
}
