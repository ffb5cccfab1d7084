// The lent array: its book and its slots. Only this crate knows where a word lies.
#![tactic(auto)]

pub mod counters;
pub mod fresh;
pub mod sound;
mod word;

ghost use Rattle.std.specs.Prelude.{◌≡◌, List, [], ◌∷◌, ◌++◌, ℕ, ◌+◌, ◌*◌, ◌≤◌, ◌<◌, eqb, length, get_or, take, drop};
ghost use Rattle.buffers.specs.Slots.{base, capacity_of};
ghost use Rattle.buffers.specs.Format.{count_of, start_of, mark_of, word_of, buffer_of, head_of};
ghost use Rattle.buffers.specs.Post.{Has, Now, Dropping, Growing, Laying, Emptied, Headed, Word};

use word::{FIRST, MARK, Packed, START};

// How many entries buffer n has.
#[tactic(auto, using(crate::proofs::ArrayLaws::buffer_length))]
pub fn count(a: &[u64], n: usize) -> usize
    requires { Has a.now n }
    ensures { result ≡ length (buffer_of a.now n) }
{
    Packed::of(a, n).count() as usize
}

// Whether buffer n has the mark "exhausted".
pub fn exhausted(a: &[u64], n: usize) -> bool
    requires { Has a.now n }
    ensures { result ≡ eqb (mark_of a.now n) 1 }
{
    Packed::of(a, n).exhausted()
}

// How far into its slots buffer n starts.
pub fn start_place(a: &[u64], n: usize) -> usize
    requires { Has a.now n }
    ensures { result ≡ start_of a.now n }
{
    Packed::of(a, n).start() as usize
}

// The entries of buffer n, whose slots begin at word `at`.
#[tactic(auto, using(crate::proofs::ArrayLaws::buffer_length, crate::proofs::ArrayLaws::entries_are))]
pub fn entries(a: &[u64], n: usize, at: usize) -> &[u64]
    requires of { Has a.now n }
    requires begins { at ≡ base n }
    ensures { result.now ≡ buffer_of a.now n }
{
    let head = at + start_place(a, n);
    &a[head..head + count(a, n)]
}

// The first entry of buffer n, whose slots begin at word `at`.
#[tactic(auto, using(crate::proofs::ArrayLaws::buffer_length))]
pub fn head(a: &[u64], n: usize, at: usize) -> u64
    requires { Headed a.now n at }
    ensures { result ≡ get_or (buffer_of a.now n) 0 0 }
{
    entries(a, n, at)[0]
}

// The first m entries of buffer n leave it.
pub fn drop_front(a: &mut [u64], n: usize, m: usize)
    requires { Dropping a.old n m }
    ensures now { Now a.old a.new n (drop m (buffer_of a.old n)) }
    ensures word { Word a.new n (mark_of a.old n) (start_of a.old n + m) }
{
    a[FIRST + n] += m as u64 * (START - 1);
}

// The m words behind buffer n's entries join it.
pub fn grow(a: &mut [u64], n: usize, m: usize)
    requires { Growing a.old n m }
    ensures now { Now a.old a.new n (take (count_of a.old n + m) (drop (head_of a.old n) a.old)) }
    ensures word { Word a.new n (mark_of a.old n) (start_of a.old n) }
{
    a[FIRST + n] += m as u64;
}

// Buffer n has the first m words of its slots, and no mark.
pub fn settle(a: &mut [u64], n: usize, m: usize)
    requires { Laying a.old n m }
    ensures now { Now a.old a.new n (take m (drop (base n) a.old)) }
    ensures word { Word a.new n 0 0 }
{
    a[FIRST + n] = m as u64;
}

// Buffer n, which is empty, gets the mark "exhausted".
pub fn exhaust(a: &mut [u64], n: usize)
    requires { Emptied a.old n }
    ensures now { Now a.old a.new n [] }
    ensures word { Word a.new n 1 0 }
{
    a[FIRST + n] = MARK;
}
