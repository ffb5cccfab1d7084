// Runs: merging, joining and laying of words that are lent. For any words, sorted or not.
#![tactic(auto)]

ghost use Rattle.std.specs.Prelude.{◌≡◌, ℕ, List, ◌++◌, ◌+◌, ◌-◌, ◌≤◌, ◌<◌, leb, length};
ghost use Rattle.rules.specs.Entries.{key_by};
ghost use Rattle.runs.specs.Until.{until_end};
ghost use Rattle.runs.specs.Promises.{laid_at, stretch, Beside, Joins, Merges, Moves, Parts, Stretches};

use rules::Rule;
use std::ops::Range;

// Whether x moves before y where x is the first input's: the one place that knows the order.
#[tactic(auto, unfolding(rules::specs::Entries::key_by))]
pub fn goes_first(rule: Rule, x: u64, y: u64) -> bool
    ensures { result ≡ leb (key_by rule x) (key_by rule y) }
{
    x <= y
}

// How far merge steps went: the entries that were moved in all, and those of the first input.
#[derive(Clone, Copy)]
pub struct Run {
    pub moved: usize,
    pub first: usize,
}

// Merge steps of two runs that have entries, until one ends or out is full. The heads stay in locals: a step reads one word and writes one.
fn merge_heads(rule: Rule, xs: &[u64], ys: &[u64], out: &mut [u64]) -> Run
    requires { (0 < length xs.now) × (0 < length ys.now) }
    ensures { Merges (key_by rule) xs.now ys.now out.old out.new 0 (length out.old) result.moved result.first }
{
    let mut i = 0;
    let mut j = 0;
    let mut x = xs[0];
    let mut y = ys[0];
    for slot in out.iter_mut() {
        if goes_first(rule, x, y) {
            *slot = x;
            i += 1;
            if i == xs.len() {
                break;
            }
            x = xs[i];
        } else {
            *slot = y;
            j += 1;
            if j == ys.len() {
                break;
            }
            y = ys[j];
        }
    }
    Run {
        moved: i + j,
        first: i,
    }
}

// Merge steps of two lent runs, until one ends or out is full. What of the first goes before the second's head is laid as one block, then what of the second goes before the first's next entry.
fn merge_until(rule: Rule, xs: &[u64], ys: &[u64], out: &mut [u64]) -> Run
    ensures { Merges (key_by rule) xs.now ys.now out.old out.new 0 (length out.old) result.moved result.first }
{
    if xs.is_empty() || ys.is_empty() {
        return Run { moved: 0, first: 0 };
    }
    let n = xs.len().min(out.len());
    let i = xs[..n]
        .iter()
        .take_while(|x| goes_first(rule, **x, ys[0]))
        .count();
    lay(out, 0, &xs[..i]);
    if i == n {
        return Run { moved: i, first: i };
    }
    let m = ys.len().min(out.len() - i);
    let j = ys[..m]
        .iter()
        .take_while(|y| !goes_first(rule, xs[i], **y))
        .count();
    lay(out, i, &ys[..j]);
    let t = i + j;
    if j == m {
        return Run { moved: t, first: i };
    }
    let more = merge_heads(rule, &xs[i..], &ys[j..], &mut out[t..]);
    Run {
        moved: t + more.moved,
        first: i + more.first,
    }
}

// Merges as many entries as out has room for, and says how many are the first run's.
pub fn part(rule: Rule, xs: &[u64], ys: &[u64], out: &mut [u64]) -> usize
    requires { length out.old ≤ length xs.now + length ys.now }
    ensures { Parts (key_by rule) xs.now ys.now out.old out.new result }
{
    // Many buffers of a path are empty.
    if out.is_empty() {
        return 0;
    }
    let Run { moved, first } = merge_until(rule, xs, ys, out);
    let left = out.len() - moved;
    if left == 0 {
        return first;
    }
    if first < xs.len() {
        let end = first + left;
        lay(out, moved, &xs[first..end]);
        return end;
    }
    let second = moved - first;
    lay(out, moved, &ys[second..second + left]);
    first
}

// Merges until one run ends, and hands back the unread rest of the run that outlasts the other, or the empty end of the first if both end together.
pub fn join<'a>(rule: Rule, xs: &'a [u64], ys: &'a [u64], out: &mut [u64]) -> &'a [u64]
    requires { until_end (key_by rule) xs.now ys.now ≤ length out.old }
    ensures { Joins (key_by rule) xs.entry ys.entry out.old out.new result }
{
    let Run { moved, first } = merge_until(rule, xs, ys, out);
    let second = moved - first;
    if second < ys.len() {
        return &ys[second..];
    }
    &xs[first..]
}

// Lays a run into the array's own stretch that starts at a place. A loop: std's copy misses the aim of docs/SPEED.md for a join of 1,080 entries that is one block.
#[tactic(auto, using(std::proofs::lemmas::List::Edits::paste_more, std::proofs::lemmas::List::Edits::paste_all))]
pub fn lay(array: &mut [u64], at: usize, from: &[u64])
    requires { at + length from.now ≤ length array.old }
    ensures { array.new ≡ laid_at array.old at from.now }
{
    for (i, word) in from.iter().enumerate() {
        array[at + i] = *word;
    }
}

// A run of an array of which a stretch is lent elsewhere: what stands before that stretch, how long it is, and what stands behind it. The run does not meet it.
fn beside<'a>(before: &'a [u64], lent: usize, behind: &'a [u64], run: Range<usize>) -> &'a [u64]
    requires { Beside (length before.now) lent (length behind.now) run.start run.end }
    ensures long { length result.now ≡ run.end - run.start }
    ensures words { (there : List ℕ) → length there ≡ lent → result.now ≡ stretch run.start run.end (before.now ++ (there ++ behind.now)) }
{
    if run.end <= before.len() {
        return &before[run];
    }
    let skipped = before.len() + lent;
    &behind[run.start - skipped..run.end - skipped]
}

// Merge steps inside one array, until an input is empty or the room at `out` is used up.
pub fn merge_run(
    rule: Rule,
    a: &mut [u64],
    out: Range<usize>,
    one: Range<usize>,
    two: Range<usize>,
) -> Run
    requires { Stretches a.old out.start one.start one.end two.start two.end (out.end - out.start) }
    ensures { Merges (key_by rule) (stretch one.start one.end a.old) (stretch two.start two.end a.old) a.old a.new out.start (out.end - out.start) result.moved result.first }
{
    if one.is_empty() || two.is_empty() || out.is_empty() {
        return Run { moved: 0, first: 0 };
    }
    let room = out.end - out.start;
    let (before, rest) = a.split_at_mut(out.start);
    let (free, behind) = rest.split_at_mut(room);
    let xs = beside(before, room, behind, one);
    let ys = beside(before, room, behind, two);
    merge_heads(rule, xs, ys, free)
}

// Merge steps inside one array where only one input has entries: so many of them move.
pub fn move_run(a: &mut [u64], out: usize, from: usize, count: usize)
    requires { Moves a.old out from count }
    ensures { a.new ≡ laid_at a.old out (stretch from (from + count) a.old) }
{
    a.copy_within(from..from + count, out);
}
