// Bytes cut into lines, each read as an order; the bytes may come in any pieces.
#![tactic(auto)]

ghost use Rattle.std.specs.Prelude.{◌≡◌, ◌==◌, [], ◌∷◌, ◌++◌, drop, position};
ghost use Rattle.frames.specs.Answers.{read_back};
ghost use Rattle.frames.specs.Frames.{read_of};
ghost use Rattle.lines.specs.Cutter.{decisive, kept, feed_of, last_of, next_of};
ghost use Rattle.lines.specs.Answers.{ended_back, fed_back, next_back};

use frames::{NotAFrame, Order};

pub const LINE_END: u8 = b'\n';

// One more byte than the longest frame has: a line of so many is no frame, whatever follows.
const KEPT: usize = 19;

// The first bytes of the line so far.
#[derive(Clone, Copy, Debug)]
pub struct Cutter {
    pub bytes: [u8; KEPT],
    pub len: usize,
}

// A line that ended, read as a frame.
pub type Ended = Option<Result<Order, NotAFrame>>;

#[derive(Clone, Copy, Debug)]
pub struct Fed {
    pub cutter: Cutter,
    pub ended: Ended,
}

// at is the place behind the last byte that was read.
#[derive(Clone, Copy, Debug)]
pub struct Next {
    pub cutter: Cutter,
    pub at: usize,
    pub ended: Ended,
}

// A line, which is not looked at where it is longer than every frame.
#[tactic(auto, using(crate::proofs::CutterLaws::long_refused))]
fn read(line: &[u8]) -> Result<Order, NotAFrame>
    ensures { read_back result ≡ read_of line.now }
{
    if line.len() < KEPT {
        return frames::read(line);
    }
    Err(NotAFrame)
}

// The place of the first line end.
fn line_end(bytes: &[u8]) -> Option<usize>
    ensures { result ≡ position (λ b. b == 10) bytes.now }
{
    bytes.iter().position(|byte| *byte == LINE_END)
}

impl Cutter {
    pub fn new() -> Self
        ensures { kept result ≡ [] }
    {
        Self {
            bytes: [0; KEPT],
            len: 0,
        }
    }

    // The bytes that are kept; all of them where the count is past them.
    pub fn kept(&self) -> &[u8]
        ensures { result.now ≡ kept self.now }
    {
        &self.bytes[..self.len.min(KEPT)]
    }

    // A byte that is no line end; behind the bytes that are kept it changes nothing.
    #[tactic(auto, using(crate::proofs::CutterLaws::kept_full))]
    pub fn onward(mut self, byte: u8) -> Self
        ensures { kept result ≡ decisive (kept self ++ (byte ∷ [])) }
    {
        if self.len < KEPT {
            self.bytes[self.len] = byte;
            self.len += 1;
        }
        self
    }

    pub fn feed(self, byte: u8) -> Fed
        ensures { fed_back result ≡ feed_of (kept self) byte }
    {
        if byte == LINE_END {
            return Fed {
                cutter: Self::new(),
                ended: Some(read(self.kept())),
            };
        }
        Fed {
            cutter: self.onward(byte),
            ended: None,
        }
    }

    // The last line, which counts if it has at least one byte.
    #[tactic(auto, using(crate::proofs::CutterLaws::last_none, crate::proofs::CutterLaws::last_some))]
    pub fn finish(self) -> Ended
        ensures { ended_back result ≡ last_of (kept self) }
    {
        let line = self.kept();
        if line.is_empty() {
            return None;
        }
        Some(read(line))
    }

    // What is kept after bytes that have no line end: no more of them are read than those that decide.
    fn keep(self, bytes: &[u8]) -> Self
        ensures { kept result ≡ decisive (kept self ++ bytes.now) }
    {
        let mut so_far = self;
        for byte in &bytes[..bytes.len().min(KEPT)] {
            so_far = so_far.onward(*byte);
        }
        so_far
    }

    // The line that a line end behind some bytes ends; where it is whole there, it is read where it stands.
    fn line_with(self, bytes: &[u8]) -> Result<Order, NotAFrame>
        ensures { read_back result ≡ read_of (kept self ++ bytes.now) }
    {
        if self.len == 0 {
            return read(bytes);
        }
        read(self.keep(bytes).kept())
    }

    // The next line of a piece from a place on, or what the piece has of it.
    pub fn next_line(self, piece: &[u8], at: usize) -> Next
        ensures { next_back result ≡ next_of (kept self) at (drop at piece.now) }
    {
        if piece.len() <= at {
            return Next {
                cutter: self,
                at,
                ended: None,
            };
        }
        let rest = &piece[at..];
        match line_end(rest) {
            Some(end) => Next {
                cutter: Self::new(),
                at: at + end + 1,
                ended: Some(self.line_with(&rest[..end])),
            },
            None => Next {
                cutter: self.keep(rest),
                at: piece.len(),
                ended: None,
            },
        }
    }
}
