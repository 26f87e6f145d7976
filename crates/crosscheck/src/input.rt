// The cases, read a word at a time; past the input's end every word is 0.
ghost use Rattle.std.specs.Prelude.{◌≤◌};

use arrayvec::ArrayVec;
use std::array;
use std::io::Read;

// The longest memory and wait list of a case.
const MOST_LIST: usize = 64;

// Reads no byte ahead: what stands behind the case that ends the program is left to whoever reads on.
#[derive(Drop)]
pub struct CaseReader<R> {
    input: R,
}

impl<R: Read + Drop> CaseReader<R> {
    pub fn new(input: R) -> CaseReader<R> {
        CaseReader { input }
    }

    // The lowest byte comes first. An input that cannot be read is at its end: the bytes that are missing stay 0.
    pub fn next_word(&mut self) -> u32 {
        let mut bytes = [0u8; 4];
        let _ = self.input.read_exact(&mut bytes);
        u32::from_le_bytes(bytes)
    }

    // A number, at most `most`.
    pub fn next_number(&mut self, most: u32) -> u32
        ensures { result ≤ most }
    {
        self.next_word().min(most)
    }

    pub fn next_flag(&mut self) -> bool {
        self.next_word() != 0
    }

    pub fn next_list(&mut self) -> ArrayVec<u32, MOST_LIST> {
        let mut list = ArrayVec::new();
        for _ in 0..self.next_number(MOST_LIST as u32) {
            let _ = list.try_push(self.next_word());
        }
        list
    }

    pub fn next_waits(&mut self) -> ArrayVec<u16, MOST_LIST> {
        let mut list = ArrayVec::new();
        for _ in 0..self.next_number(MOST_LIST as u32) {
            let _ = list.try_push(low_half(self.next_word()));
        }
        list
    }

    pub fn next_registers(&mut self) -> [u32; 8] {
        array::from_fn(|_| self.next_word())
    }
}

pub fn low_half(word: u32) -> u16 {
    (word & 0xffff) as u16
}
