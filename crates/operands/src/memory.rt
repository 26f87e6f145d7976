// Words of a borrowed memory, at any address.
ghost use Rattle.std.specs.Prelude.{◌≡◌};
ghost use Rattle.model.specs.Words.{word_at, store_word};
ghost use Rattle.operands.specs.Stores.{StoresAbove};

// The word at an address; 0 where that is absent.
pub fn load(memory: &[u32], i: usize) -> u32
    ensures { result ≡ word_at memory.now i }
{
    memory.get(i).copied().unwrap_or(0)
}

// The word at an address is replaced, where there is one. (Not by `get_mut`: of the slice that it lends from, a proof knows the length alone.)
pub fn store(memory: &mut [u32], i: usize, x: u32)
    ensures { memory.new ≡ store_word memory.old i x }
{
    if i < memory.len() {
        memory[i] = x;
    }
}

// A program's store: below the bottom of memory it alters nothing. Whether it put the word. One comparison tells that the address is neither
// below the bottom, where the difference goes round, nor absent: with one for each the stacking loop took 2 to 3 % longer.
pub fn store_above(memory: &mut [u32], bottom: u32, address: u32, word: u32) -> bool
    ensures { StoresAbove bottom memory.old address word memory.new result }
{
    let i = address as usize;
    let base = bottom as usize;
    if i.wrapping_sub(base) < memory.len().saturating_sub(base) {
        memory[i] = word;
        return true;
    }
    false
}
