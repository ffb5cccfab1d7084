// Pairs of due and acting tick with a door, one a line; the input comes in any pieces and is kept in three lent arrays.
#![tactic(auto)]

ghost use Rattle.std.specs.Prelude.{◌≡◌, [], None};
ghost use Rattle.lines.specs.Cutter.{feed_of, kept, kept_after};
ghost use Rattle.pairs.specs.Reads.{pair_of, reads_by, reads_from, last_reads};
ghost use Rattle.pairs.specs.State.{state_of, one_more, lines_after, Room};
ghost use Rattle.pairs.specs.Answers.{pair_back};

use lateness::MOST_PAIRS;
use lines::{Cutter, LINE_END};

// The digits of a pair: due 8, acting 8, door 2.
const DIGITS: usize = 18;

// Lines are counted so far and no further.
const TOO_MANY: usize = MOST_PAIRS + 1;

#[derive(Clone, Copy, Debug, PartialEq, Eq)]
pub struct Pair {
    pub due: u32,
    pub acting: u32,
    pub door: u8,
}

// wrong is the number of the first line that is no pair, counted from 1.
#[derive(Clone, Copy)]
pub struct Heard {
    pub cutter: Cutter,
    pub lines: usize,
    pub wrong: Option<usize>,
}

#[tactic(auto, using(crate::proofs::ReadLaws::pair_rough, crate::proofs::ReadLaws::pair_other))]
fn read(line: &[u8]) -> Option<Pair>
    ensures { pair_back result ≡ pair_of line.now }
{
    if line.len() != DIGITS || !frames::capital(line) {
        return None;
    }
    Some(Pair {
        due: frames::number(&line[..8]) as u32,
        acting: frames::number(&line[8..16]) as u32,
        door: frames::number(&line[16..18]) as u8,
    })
}

impl Heard {
    pub fn new() -> Self
        ensures cutter_value { kept result.cutter ≡ [] }
        ensures lines_value { result.lines ≡ 0 }
        ensures wrong_value { result.wrong ≡ None }
    {
        Self {
            cutter: Cutter::new(),
            lines: 0,
            wrong: None,
        }
    }

    // The line that is kept ends. The first wrong line stays the first.
    #[tactic(auto, using(crate::proofs::StateLaws::more_over, crate::proofs::StateLaws::more_none))]
    fn ended(self, due: &mut [u32], acting: &mut [u32], doors: &mut [u8]) -> Self
        requires { Room due.old acting.old doors.old }
        ensures result_after { state_of due.new acting.new doors.new result ≡ one_more (state_of due.old acting.old doors.old self) (pair_of (kept self.cutter)) }
        ensures cutter_value { kept result.cutter ≡ [] }
    {
        if MOST_PAIRS <= self.lines {
            return Self {
                cutter: Cutter::new(),
                lines: TOO_MANY,
                ..self
            };
        }
        let at = self.lines;
        let lines = at + 1;
        let Some(pair) = read(self.cutter.kept()) else {
            return Self {
                cutter: Cutter::new(),
                lines,
                wrong: self.wrong.or(Some(lines)),
            };
        };
        due[at] = pair.due;
        acting[at] = pair.acting;
        doors[at] = pair.door;
        Self {
            cutter: Cutter::new(),
            lines,
            ..self
        }
    }

    #[tactic(auto, using(crate::proofs::HearLaws::byte_laws))]
    fn hear_byte(self, due: &mut [u32], acting: &mut [u32], doors: &mut [u8], byte: u8) -> Self
        requires { Room due.old acting.old doors.old }
        ensures result_after { state_of due.new acting.new doors.new result ≡ lines_after (state_of due.old acting.old doors.old self) (reads_by (kept self.cutter) byte) }
        ensures cutter_value { kept result.cutter ≡ (feed_of (kept self.cutter) byte).keeps }
    {
        if byte == LINE_END {
            return self.ended(due, acting, doors);
        }
        Self {
            cutter: self.cutter.onward(byte),
            ..self
        }
    }

    // A piece of the input.
    pub fn hear(self, due: &mut [u32], acting: &mut [u32], doors: &mut [u8], piece: &[u8]) -> Self
        requires { Room due.old acting.old doors.old }
        ensures result_after { state_of due.new acting.new doors.new result ≡ lines_after (state_of due.old acting.old doors.old self) (reads_from (kept self.cutter) piece.now) }
        ensures cutter_value { kept result.cutter ≡ kept_after (kept self.cutter) piece.now }
    {
        let mut heard = self;
        for byte in piece {
            heard = heard.hear_byte(due, acting, doors, *byte);
        }
        heard
    }

    // The last line, which counts if it has at least one byte.
    #[tactic(auto, using(crate::proofs::HearLaws::last_none, crate::proofs::HearLaws::last_some))]
    pub fn finish(self, due: &mut [u32], acting: &mut [u32], doors: &mut [u8]) -> Self
        requires { Room due.old acting.old doors.old }
        ensures result_after { state_of due.new acting.new doors.new result ≡ lines_after (state_of due.old acting.old doors.old self) (last_reads (kept self.cutter)) }
        ensures cutter_value { kept result.cutter ≡ [] }
    {
        if self.cutter.kept().is_empty() {
            return self;
        }
        self.ended(due, acting, doors)
    }
}
