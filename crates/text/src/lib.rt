// Lines for people, laid into lent bytes: text, and numbers in decimal.
#![tactic(auto)]

mod line;
mod number;

ghost use Rattle.std.specs.Prelude.{◌≡◌, ◌+◌, ◌≤◌, length};
ghost use Rattle.text.specs.Decimal.{places, decimal, signed};
ghost use Rattle.text.specs.Laid.{Laid};

pub use line::Line;
pub use number::Number;

// How many digits a number has; 0 has one.
#[tactic(auto, using(crate::proofs::DecimalLaws::places_log))]
fn places(n: u64) -> usize
    ensures { result ≡ places n }
{
    n.checked_ilog10().unwrap_or(0) as usize + 1
}

// Lays a text at a place and gives the place behind it.
pub fn lay(out: &mut [u8], at: usize, text: &[u8]) -> usize
    requires { at + length text.now ≤ length out.old }
    ensures { Laid text.now at out.old out.new result }
{
    let end = at + text.len();
    out[at..end].copy_from_slice(text);
    end
}

// Lays a number in decimal; 20 bytes are room for every one.
#[tactic(auto, using(crate::proofs::DecimalLaws::places_few))]
pub fn lay_number(out: &mut [u8], at: usize, n: u64) -> usize
    requires { at + 20 ≤ length out.old }
    ensures { Laid (decimal n) at out.old out.new result }
{
    let end = at + places(n);
    digits::put::<10>(&mut out[at..end], n);
    end
}

// The same for a number below zero, too, behind its sign; 21 bytes are room for every one.
pub fn lay_signed(out: &mut [u8], at: usize, n: i64) -> usize
    requires { at + 21 ≤ length out.old }
    ensures { Laid (signed n) at out.old out.new result }
{
    let behind = if n < 0 { lay(out, at, b"-") } else { at };
    lay_number(out, behind, n.unsigned_abs())
}
