// Writes images of the FM8502.
#![tactic(auto)]

mod bytes;
mod fields;

ghost use Rattle.image.specs.Calls.{Writes};

use fields::{image_size, put_image};
use image::is_version;
use model::{Machine, Refusal};
use refusals::memory_fits;

// Writes the image of a machine and its memory, as version 1 or 2, to the front of `out`. How many bytes the image has.
pub fn write(
    memory: &[u32],
    machine: Machine,
    version: u32,
    out: &mut [u8],
) -> Result<usize, Refusal>
    ensures { Writes memory.now machine version out.old out.new result }
{
    memory_fits(memory)?;
    let size = image_size(memory.len());
    if out.len() < size {
        return Err(Refusal::ShortOutput);
    }
    if !is_version(version) {
        return Err(Refusal::WrongVersion);
    }
    put_image(memory, machine, version as u8, out);
    Ok(size)
}
