// Lines that grow at their end, in a room of their own.
ghost use Rattle.std.specs.Prelude.{◌≡◌, ◌+◌, ◌≤◌, [], ◌++◌, length};

use crate::Number;
use arrayvec::ArrayVec;
use std::marker::Model;

// At most N bytes.
#[derive(Drop)]
pub struct Line<const N: usize> {
    bytes: ArrayVec<u8, N>,
}

impl<const N: usize> Model for Line<N> {
    ghost use Rattle.std.specs.Prelude.{List, ℕ};

    ghost Value = { List ℕ };

    ghost view = { λ line. line.bytes.items };
}

impl<const N: usize> Line<N> {
    pub fn new() -> Self
        ensures { result ≡ [] }
    {
        Line {
            bytes: ArrayVec::new(),
        }
    }

    pub fn as_slice(&self) -> &[u8]
        ensures value { result.now ≡ self.now }
        ensures fits { length result.now ≤ N }
    {
        self.bytes.as_slice()
    }

    pub fn text(&mut self, text: &[u8])
        requires { length self.old + length text.now ≤ N }
        ensures { self.new ≡ self.old ++ text.now }
    {
        self.bytes.try_extend_from_slice(text).unwrap();
    }

    pub fn number<T: Number>(&mut self, n: T)
        requires { length self.old + T.ROOM ≤ N }
        ensures text { self.new ≡ self.old ++ T.text n }
        ensures few { length self.new ≤ length self.old + T.ROOM }
    {
        let mut digits = [0; 21];
        let end = n.lay(&mut digits[..T::ROOM], 0);
        self.text(&digits[..end]);
    }

    // A label, and a number.
    pub fn field<T: Number>(&mut self, label: &[u8], n: T)
        requires { length self.old + length label.now + T.ROOM ≤ N }
        ensures text { self.new ≡ self.old ++ label.now ++ T.text n }
        ensures few { length self.new ≤ length self.old + length label.now + T.ROOM }
    {
        self.text(label);
        self.number(n);
    }
}
