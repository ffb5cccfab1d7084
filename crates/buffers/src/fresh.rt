// The book that setup writes: every counter 1, every buffer empty.
ghost use Rattle.std.specs.Prelude.{◌≤◌, length};
ghost use Rattle.buffers.specs.Fresh.{Written, CanBegin, Begun};

use crate::word::FIRST;
use rules::Link;

// Writes w into every word from `at` up to `end`.
pub fn write(a: &mut [u64], at: usize, end: usize, w: u64)
    requires { (at ≤ end) × (end ≤ length a.old) }
    ensures { Written a.old a.new at end w }
{
    a[at..end].fill(w);
}

// The link number, every counter 1, and every buffer empty from its first slot on.
pub fn begin(a: &mut [u64], links: usize)
    requires { CanBegin a.old links }
    ensures { Begun a.old a.new links }
{
    a[0] = links as u64;
    write(a, 1, links + 1, 1);
    write(a, FIRST, FIRST + Link::at(links + 1).first(), 0);
}
