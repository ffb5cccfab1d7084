// A buffer's word in the book: bits 0 to 15 its count, bit 16 its mark, bits 17 to 63 its start place.
ghost use Rattle.std.specs.Prelude.{◌≡◌, ◌+◌, ◌<◌, eqb, length};
ghost use Rattle.buffers.specs.Format.{count_in, mark_in, start_in, word_of};

// The words of the book before the first buffer's.
pub const FIRST: usize = 8;

// A word with the mark alone, and one with the start place 1 alone.
pub const MARK: u64 = 65536;

pub const START: u64 = 131072;

#[derive(Clone, Copy)]
pub struct Packed {
    pub bits: u64,
}

impl Packed {
    pub fn of(a: &[u64], n: usize) -> Self
        requires { 8 + n < length a.now }
        ensures { result.bits ≡ word_of a.now n }
    {
        Self { bits: a[FIRST + n] }
    }

    pub fn count(self) -> u64
        ensures { result ≡ count_in self.bits }
    {
        self.bits % MARK
    }

    pub fn exhausted(self) -> bool
        ensures { result ≡ eqb (mark_in self.bits) 1 }
    {
        self.bits / MARK % 2 == 1
    }

    pub fn start(self) -> u64
        ensures { result ≡ start_in self.bits }
    {
        self.bits / START
    }
}
