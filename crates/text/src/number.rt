// Numbers that people read, in decimal.
ghost use Rattle.std.specs.Prelude.{◌+◌, ◌≤◌, ℕ, List, length};
ghost use Rattle.text.specs.Decimal.{decimal, signed};
ghost use Rattle.text.specs.Laid.{Laid};
ghost use Rattle.std.proofs.Common.{lit≤};

use crate::{lay_number, lay_signed};

pub trait Number {
    ghost text: { Self → List ℕ };

    ghost ROOM: { ℕ };

    // Bytes that are room for every one.
    const ROOM: usize;

    fn lay(self, out: &mut [u8], at: usize) -> usize
        requires { at + ROOM ≤ length out.old }
        ensures { Laid (text self) at out.old out.new result };

    ghost short: { ROOM ≤ 21 };
}

impl Number for u64 {
    ghost text = { decimal };

    ghost ROOM = { 20 };

    const ROOM: usize = 20;

    ghost short = { lit≤ tt };

    fn lay(self, out: &mut [u8], at: usize) -> usize {
        lay_number(out, at, self)
    }
}

impl Number for i64 {
    ghost text = { signed };

    ghost ROOM = { 21 };

    const ROOM: usize = 21;

    ghost short = { lit≤ tt };

    fn lay(self, out: &mut [u8], at: usize) -> usize {
        lay_signed(out, at, self)
    }
}
