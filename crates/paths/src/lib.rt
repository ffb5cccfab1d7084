// The insertion buffer, and paths: from A(1) down to an S.
#![tactic(auto)]

ghost use Rattle.std.specs.Prelude.{◌≡◌, ◌+◌, ◌≤◌, ◌<◌, length};
ghost use Rattle.rules.specs.Entries.{key_by};
ghost use Rattle.rules.specs.Links.{all_buffers, LinkNumber};
ghost use Rattle.rules.specs.Insert.{placed};
ghost use Rattle.rules.specs.Merge.{join};
ghost use Rattle.buffers.specs.Format.{buffer_of};
ghost use Rattle.buffers.specs.Slots.{base};
ghost use Rattle.buffers.specs.Post.{Now, Word};
ghost use Rattle.runs.specs.Promises.{laid_at, stretch};
ghost use Rattle.paths.specs.Along.{Number, LinkOf, Noting, Noted, Copying, Copied, along_from, Gathering};
ghost use Rattle.paths.specs.Laying.{Lays, Emptying, Empty, LayingOut, LaidOut};
ghost use Rattle.paths.specs.Placing.{Holds, Placing};
ghost use Rattle.paths.specs.Refills.{Filling, Filled, Ending, Ended, Refilling, Refilled};
ghost use Rattle.paths.specs.Way.{numbers_of, counts_of, Ends, OutputsAre, PathIs};

use rules::{Link, Rule};

// Places the entry before the first larger one of the count entries from start on, and lays them all at the beginning: what goes before it moves first, then what stands behind it.
fn place_in(rule: Rule, slots: &mut [u64], start: usize, count: usize, entry: u64)
    requires { Holds slots.old start count }
    ensures { slots.new ≡ laid_at slots.old 0 (placed (key_by rule) entry (stretch start (start + count) slots.old)) }
{
    let before = slots[start..start + count]
        .iter()
        .take_while(|x| runs::goes_first(rule, **x, entry))
        .count();
    slots.copy_within(start..start + before, 0);
    slots.copy_within(start + before..start + count, before + 1);
    slots[before] = entry;
}

// "place the entry in I before the first larger one": I then begins at its first slot.
pub fn place_entry(rule: Rule, a: &mut [u64], entry: u64)
    requires { Placing a.old }
    ensures now { Now a.old a.new 0 (placed (key_by rule) entry (buffer_of a.old 0)) }
    ensures word { Word a.new 0 0 0 }
{
    let start = buffers::start_place(a, 0);
    let count = buffers::count(a, 0);
    let end = Link::BOOK + Link::INSERTION;
    place_in(rule, &mut a[Link::BOOK..end], start, count, entry);
    buffers::settle(a, 0, count + 1);
}

// A buffer on a path, by its number, and the count that is noted on it.
#[derive(Clone, Copy)]
pub struct Step {
    pub buffer: usize,
    pub count: usize,
}

impl Step {
    // To a buffer; no count is noted yet.
    fn to(buffer: usize) -> Self
        ensures { result.buffer ≡ buffer }
    {
        Self { buffer, count: 0 }
    }
}

// A path from A(1) down to an S: its first steps, as many as length says.
#[derive(Drop)]
pub struct Path {
    pub steps: [Step; Link::PATH],
    pub length: usize,
}

// The numbers of A(1), A(2) .. A(i-1), at the beginning of the steps.
fn outputs_before(i: usize, steps: &mut [Step; Link::PATH])
    requires { LinkNumber i }
    ensures { OutputsAre i (numbers_of steps.new) }
{
    for n in 1..i {
        steps[n - 1] = Step::to(Link::at(n).first());
    }
}

// The link of buffer n, which is not I.
fn link_of(n: usize) -> usize
    requires { Number n }
    ensures { LinkOf n result }
{
    for i in (2..=Link::MOST).rev() {
        if Link::at(i).first() <= n {
            return i;
        }
    }
    1
}

// The word at which buffer n's slots begin.
pub fn base_of(n: usize) -> usize
    requires { n < all_buffers }
    ensures { result ≡ base n }
{
    if n == 0 {
        return Link::BOOK;
    }
    let link = Link::at(link_of(n));
    Link::BOOK + link.slot(n - link.first())
}

// Copies the entries of buffer n into the work area from a place on. Answers how many.
#[tactic(auto, using(buffers::proofs::ArrayLaws::buffer_length))]
pub fn copy_out(a: &[u64], n: usize, work: &mut [u64], at: usize) -> usize
    requires { Copying a.now n work.old at }
    ensures { Copied (buffer_of a.now n) work.old work.new at result }
{
    let run = buffers::entries(a, n, base_of(n));
    runs::lay(work, at, run);
    run.len()
}

// Buffer n gets the next m entries of two runs that are joined, in its own slots. Answers how many are the first run's.
pub fn refill_one(rule: Rule, a: &mut [u64], n: usize, m: usize, xs: &[u64], ys: &[u64]) -> usize
    requires { Filling a.old n m xs.now ys.now }
    ensures { Filled (key_by rule) a.old a.new n m xs.now ys.now result }
{
    let at = base_of(n);
    let first = runs::part(rule, xs, ys, &mut a[at..at + m]);
    buffers::settle(a, n, m);
    first
}

// Joins two runs into a stretch of slots, and lays what the joining hands back behind it.
#[tactic(auto, using(crate::proofs::RefillLaws::join_room, runs::proofs::PromiseLaws::joins_laid))]
fn join_into<'a>(rule: Rule, xs: &'a [u64], ys: &'a [u64], stretch: &mut [u64])
    requires { length xs.now + length ys.now ≤ length stretch.old }
    ensures { stretch.new ≡ laid_at stretch.old 0 (join (key_by rule) xs.now ys.now) }
{
    let rest = runs::join(rule, xs, ys, stretch);
    let at = xs.len() + ys.len() - rest.len();
    runs::lay(stretch, at, rest);
}

// "The rest goes into S": into its own stretch of slots.
pub fn refill_last<'a>(rule: Rule, a: &mut [u64], n: usize, xs: &'a [u64], ys: &'a [u64])
    requires { Ending a.old n xs.now ys.now }
    ensures { Ended (key_by rule) a.old a.new n xs.now ys.now }
{
    let at = base_of(n);
    let all = xs.len() + ys.len();
    join_into(rule, xs, ys, &mut a[at..at + all]);
    buffers::settle(a, n, all);
}

impl Path {
    // Room for a path; it leads nowhere yet.
    pub fn new() -> Self
        ensures { result.length ≡ 0 }
    {
        Self {
            steps: [Step::to(0); Link::PATH],
            length: 0,
        }
    }

    // Makes it the path from A(1) to S(i,j).
    pub fn lead_to(&mut self, i: usize, j: usize)
        requires { Ends i j }
        ensures { PathIs i j (numbers_of self.new.steps) self.new.length }
    {
        outputs_before(i, &mut self.steps);
        let length = 2 * i + 1;
        self.length = length;
        let link = Link::at(i);
        let first = link.first();
        let k = link.k();
        let last = k + (j - 1);
        // the number above the last by a level is its half, above B (1) stands A (0)
        let mut above = 2 * k;
        for step in &mut self.steps[i - 1..length] {
            *step = Step::to(first + last / above);
            above /= 2;
        }
    }

    // "Note the counts on it."
    pub fn note(&mut self, a: &[u64])
        requires { Noting a.now (numbers_of self.old.steps) self.old.length (counts_of self.old.steps) }
        ensures length { self.new.length ≡ self.old.length }
        ensures numbers { numbers_of self.new.steps ≡ numbers_of self.old.steps }
        ensures noted { Noted a.now (numbers_of self.new.steps) self.new.length (counts_of self.new.steps) }
    {
        let length = self.length;
        for step in &mut self.steps[..length] {
            step.count = buffers::count(a, step.buffer);
        }
    }

    // "the run read along the path", from one place of the path on: copies it into the work area. Answers how many entries it has.
    pub fn gather(&self, a: &[u64], from: usize, work: &mut [u64], at: usize) -> usize
        requires { Gathering a.now (numbers_of self.now.steps) from self.now.length work.old at }
        ensures { Copied (along_from a.now (numbers_of self.now.steps) from self.now.length) work.old work.new at result }
    {
        let mut copied: usize = 0;
        for step in &self.steps[from..self.length] {
            copied += copy_out(a, step.buffer, work, at + copied);
        }
        copied
    }

    // "Refill each path buffer from A(1) downwards to its noted count. The rest goes into S", the last of the path: what goes in is xs joined with ys, at equal heads xs's first.
    pub fn refill<'a>(&self, rule: Rule, a: &mut [u64], mut xs: &'a [u64], mut ys: &'a [u64])
        requires { Refilling a.old (numbers_of self.now.steps) (counts_of self.now.steps) self.now.length xs.now ys.now }
        ensures { Refilled (key_by rule) a.old a.new (numbers_of self.now.steps) (counts_of self.now.steps) self.now.length xs.now ys.now }
    {
        let last = self.length - 1;
        for step in &self.steps[..last] {
            let first = refill_one(rule, a, step.buffer, step.count, xs, ys);
            xs = &xs[first..];
            ys = &ys[step.count - first..];
        }
        refill_last(rule, a, self.steps[last].buffer, xs, ys);
    }
}

// Buffer n gets a run, in its own slots.
fn lay_run(a: &mut [u64], n: usize, run: &[u64])
    requires { Lays a.old n run.now }
    ensures now { Now a.old a.new n run.now }
    ensures word { Word a.new n 0 0 }
{
    let at = base_of(n);
    runs::lay(a, at, run);
    buffers::settle(a, n, run.len());
}

// Empties the buffers before the end-th, and clears their marks.
fn empty_before(a: &mut [u64], end: usize)
    requires { Emptying a.old end }
    ensures { Empty a.old a.new end }
{
    for n in 0..end {
        buffers::settle(a, n, 0);
    }
}

// "lay it in order into S(L,1), S(L,2), .., s(L) entries each. All other buffers are empty."
pub fn lay_out(a: &mut [u64], links: usize, run: &[u64])
    requires { LayingOut a.old links }
    ensures { LaidOut a.old a.new links run.now }
{
    let link = Link::at(links);
    let k = link.k();
    let size = link.s();
    let first = link.first() + k;
    empty_before(a, first);
    let mut left = run;
    for n in first..first + k {
        let (part, rest) = left.split_at(size.min(left.len()));
        lay_run(a, n, part);
        left = rest;
    }
}
