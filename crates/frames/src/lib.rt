// Orders as lines of capital hexadecimal, and the line that answers one.
#![tactic(auto)]

ghost use Rattle.std.specs.Prelude.{◌≡◌, true, cond, ◌++◌, ◌%◌, ◌^◌, ◌<◌, ◌≤◌, ltb, length, MatchOption};
ghost use Rattle.frames.specs.Answers.{refused, read_back};
ghost use Rattle.frames.specs.Digits.{value_of, capital, number, digits, Field};
ghost use Rattle.frames.specs.Entries.{door_of, byte_of, entry_of, word_of, entry_writable};
ghost use Rattle.frames.specs.Orders.{code_of, width_of, body_of, frame_of, order_of, writable, Body};
ghost use Rattle.frames.specs.Frames.{read_of};
ghost use Rattle.frames.specs.Lines.{Laid};
ghost use Rattle.frames.specs.AnswerLine.{answer_line};

use std::error::Error;
use std::fmt;

// A door byte above 2 is kept, for refusal 7.
#[derive(Clone, Copy, Debug, PartialEq, Eq)]
pub enum Door {
    Both,
    Left,
    Right,
    Other(u8),
}

#[derive(Clone, Copy, Debug, PartialEq, Eq)]
pub struct Entry {
    pub tick: u32,
    pub door: Door,
    pub command: u32,
}

// A setup holds its links.
#[derive(Clone, Copy, Debug, PartialEq, Eq)]
pub enum Order {
    Setup(u8),
    Insert(Entry),
    Take,
    Look,
    Held,
    Audit,
}

// Answer 10: a line that is no frame, or one that cannot be written where it should stand.
#[derive(Clone, Copy, Debug, PartialEq, Eq)]
pub struct NotAFrame;

impl fmt::Display for NotAFrame {
    fn fmt<W: fmt::Write>(&self, f: &mut fmt::Formatter<W>) -> fmt::Result {
        write!(f, "not a frame")
    }
}

impl Error for NotAFrame {}

impl From<u8> for Door {
    ghost from_gives = { λ byte door. door ≡ door_of byte };

    fn from(byte: u8) -> Door {
        match byte {
            0 => Door::Both,
            1 => Door::Left,
            2 => Door::Right,
            _ => Door::Other(byte),
        }
    }
}

impl From<Door> for u8 {
    ghost from_gives = { λ door byte. byte ≡ byte_of door };

    fn from(door: Door) -> u8 {
        match door {
            Door::Both => 0,
            Door::Left => 1,
            Door::Right => 2,
            Door::Other(byte) => byte,
        }
    }
}

// A word's last 24 bits are the command, the 8 above them the door, the first 32 the tick.
const COMMANDS: u64 = 1 << 24;

const DOORS: u64 = 1 << 8;

const TICK: u64 = 1 << 32;

// The bytes of an answer's line with its 0A.
pub const ANSWER: usize = 27;

impl From<u64> for Entry {
    ghost from_gives = { λ word entry. entry ≡ entry_of word };

    fn from(word: u64) -> Entry {
        Entry {
            tick: (word / TICK) as u32,
            door: Door::from((word / COMMANDS % DOORS) as u8),
            command: (word % COMMANDS) as u32,
        }
    }
}

// The word that the queue holds; of a command above 24 bits its last 24.
impl From<Entry> for u64 {
    ghost from_gives = { λ entry word. word ≡ word_of entry };

    fn from(entry: Entry) -> u64 {
        let door = u64::from(u8::from(entry.door));
        u64::from(entry.tick) * TICK + door * COMMANDS + u64::from(entry.command) % COMMANDS
    }
}

impl Entry {
    // Whether the entry is the one that its word is read as.
    fn is_writable(self) -> bool
        ensures { result ≡ entry_writable self }
    {
        u64::from(self.command) < COMMANDS && !matches!(self.door, Door::Other(0..=2))
    }
}

impl Order {
    // The order of a code and the number in its body, if the body has room for it.
    #[tactic(auto, unfolding(crate::specs::Orders::order_of))]
    pub fn of(code: u64, body: u64) -> Result<Order, NotAFrame>
        ensures { read_back result ≡ cond (ltb body (16 ^ width_of code)) (order_of code body) refused }
    {
        match (code, body) {
            (0, 0..=255) => Ok(Order::Setup(body as u8)),
            (1, _) => Ok(Order::Insert(Entry::from(body))),
            (2, 0) => Ok(Order::Take),
            (3, 0) => Ok(Order::Look),
            (4, 0) => Ok(Order::Held),
            (5, 0) => Ok(Order::Audit),
            _ => Err(NotAFrame),
        }
    }

    pub fn code(self) -> u64
        ensures { result ≡ code_of self }
    {
        match self {
            Order::Setup(_) => 0,
            Order::Insert(_) => 1,
            Order::Take => 2,
            Order::Look => 3,
            Order::Held => 4,
            Order::Audit => 5,
        }
    }

    pub fn body(self) -> u64
        ensures { result ≡ body_of self }
    {
        match self {
            Order::Setup(links) => u64::from(links),
            Order::Insert(entry) => u64::from(entry),
            Order::Take | Order::Look | Order::Held | Order::Audit => 0,
        }
    }

    fn is_writable(self) -> bool
        ensures { result ≡ writable self }
    {
        match self {
            Order::Insert(entry) => entry.is_writable(),
            _ => true,
        }
    }
}

// The value of a capital digit.
#[tactic(auto, using(std::proofs::lemmas::Bool::Decides::nat_tests), unfolding(crate::specs::Digits::value_of))]
fn value(c: u8) -> Option<u64>
    ensures { MatchOption result (16 ≤ value_of c) (λ v. (v < 16) × (v ≡ value_of c)) }
{
    match c {
        b'0'..=b'9' => Some(u64::from(c - b'0')),
        b'A'..=b'F' => Some(u64::from(c - b'A' + 10)),
        _ => None,
    }
}

pub fn capital(line: &[u8]) -> bool
    ensures { result ≡ capital line.now }
{
    line.iter().all(|c| value(*c).is_some())
}

// The number that a field's digits write, high digit first.
pub fn number(field: &[u8]) -> u64
    requires { Field field.now }
    ensures { result ≡ number field.now }
{
    let mut n: u64 = 0;
    for c in field {
        n = n * 16 + value(*c).unwrap();
    }
    n
}

// The digits that stand after a code, two a byte.
fn width(code: u64) -> usize
    ensures { result ≡ width_of code }
{
    match code {
        0 => 2,
        1 => 16,
        _ => 0,
    }
}

// The order of a code and the digits after it, which are as many as the code says.
fn order_of(code: u64, body: &[u8]) -> Result<Order, NotAFrame>
    requires { Body code body.now }
    ensures { read_back result ≡ order_of code (number body.now) }
{
    Order::of(code, number(body))
}

// A line without its 0A.
#[tactic(auto, using(crate::proofs::FrameLaws::code_field, crate::proofs::FrameLaws::body_of, crate::proofs::FrameLaws::read_rough, crate::proofs::FrameLaws::read_other, crate::proofs::FrameLaws::read_whole))]
pub fn read(line: &[u8]) -> Result<Order, NotAFrame>
    ensures { read_back result ≡ read_of line.now }
{
    if line.len() < 2 || !capital(line) {
        return Err(NotAFrame);
    }
    let code = number(&line[..2]);
    let body = &line[2..];
    if body.len() != width(code) {
        return Err(NotAFrame);
    }
    order_of(code, body)
}

// An order's digits without 0A, at the start of a buffer.
pub fn write(order: Order, out: &mut [u8]) -> Result<usize, NotAFrame>
    ensures { Laid (writable order) (frame_of order) out.old out.new result }
{
    let code = order.code();
    // here, where the order is looked at, and not behind the first digits
    let body = order.body();
    let end = 2 + width(code);
    if !order.is_writable() || out.len() < end {
        return Err(NotAFrame);
    }
    digits::put::<16>(&mut out[..2], code);
    digits::put::<16>(&mut out[2..end], body);
    Ok(end)
}

// An answer's line with its 0A, at the start of a buffer; refused as a frame is where there is no room.
pub fn answer_line(answer: u8, word: u64, steps: u32, out: &mut [u8]) -> Result<usize, NotAFrame>
    ensures { Laid true (answer_line answer word steps) out.old out.new result }
{
    if out.len() < ANSWER {
        return Err(NotAFrame);
    }
    digits::put::<16>(&mut out[..2], u64::from(answer));
    digits::put::<16>(&mut out[2..18], word);
    digits::put::<16>(&mut out[18..26], u64::from(steps));
    out[26] = b'\n';
    Ok(ANSWER)
}
