// Takes over I and the first links of a lent array: one take, its head alone, all of them.
#![tactic(auto)]

ghost use Rattle.std.specs.Prelude.{◌≡◌, ◌+◌, ◌≤◌, get_or, drop, slice_get};
ghost use Rattle.rules.specs.Entries.{key_by};
ghost use Rattle.rules.specs.Links.{buffer_count};
ghost use Rattle.rules.specs.Tree.{links_from, entries};
ghost use Rattle.rules.specs.Merge.{merge_step};
ghost use Rattle.rules.specs.Take.{ready, take_one, take_all, insertion};
ghost use Rattle.rules.specs.Queue.{held_from};
ghost use Rattle.buffers.specs.Slots.{base};
ghost use Rattle.buffers.specs.Format.{links_in, buffers_of, buffer_of, mark_of, start_of};
ghost use Rattle.buffers.specs.Post.{Inside, Has, Headed, Now, Word};
ghost use Rattle.mergers.specs.Fills.{Did};
ghost use Rattle.takes.specs.Heads.{CanTake, Took, source_of, head_in};
ghost use Rattle.takes.specs.Emptying.{CanEmpty, TookAll};

use mergers::Place;
use rules::{Link, Rule};

// Where the smaller head stands.
#[derive(Clone, Copy)]
pub enum Source {
    First,
    Insertion,
}

// Fills A(1) if it is empty; links behind `last` count as exhausted. Answers the merge steps.
pub fn make_ready(rule: Rule, a: &mut [u64], last: usize) -> u64
    requires { CanTake a.old last }
    ensures { Did a.old a.new (links_from 1 last) (ready (key_by rule) (links_from 1 last) (buffers_of a.old)) result }
{
    if !mergers::wants_in(a, last, 1, 1) {
        return 0;
    }
    mergers::fill(rule, a, last, 1, 0)
}

// A buffer's first entry, if it has one.
fn front(a: &[u64], place: Place) -> Option<u64>
    requires { Has a.now place.number × (place.at ≡ base place.number) }
    ensures { result ≡ slice_get (buffer_of a.now place.number) 0 }
{
    buffers::entries(a, place.number, place.at).first().copied()
}

// A(1)'s head; A(1) counts only if a link does.
fn first_head(a: &[u64], last: usize) -> Option<u64>
    requires { CanTake a.now last }
    ensures { result ≡ slice_get (entries (links_from 1 last) (buffers_of a.now)) 0 }
{
    if last == 0 {
        return None;
    }
    front(a, Place::FIRST)
}

// Which of A(1) and I has the smaller head, at equality A(1).
fn smaller_head(rule: Rule, a: &[u64], last: usize) -> Option<Source>
    requires { CanTake a.now last }
    ensures { result ≡ source_of (key_by rule) (entries (links_from 1 last) (buffers_of a.now)) (insertion (buffers_of a.now)) }
{
    match (first_head(a, last), front(a, Place::INSERTION)) {
        (None, None) => None,
        (Some(_), None) => Some(Source::First),
        (None, Some(_)) => Some(Source::Insertion),
        (Some(x), Some(y)) => {
            if runs::goes_first(rule, x, y) {
                Some(Source::First)
            } else {
                Some(Source::Insertion)
            }
        }
    }
}

// A buffer's first entry leaves it.
fn hand_out(a: &mut [u64], place: Place) -> u64
    requires { Headed a.old place.number place.at }
    ensures value { result ≡ get_or (buffer_of a.old place.number) 0 0 }
    ensures now { Now a.old a.new place.number (drop 1 (buffer_of a.old place.number)) }
    ensures word { Word a.new place.number (mark_of a.old place.number) (start_of a.old place.number + 1) }
{
    let e = buffers::head(a, place.number, place.at);
    buffers::drop_front(a, place.number, 1);
    e
}

// What a take hands out, if there is anything, and the merge steps made.
#[derive(Clone, Copy)]
pub struct Taken {
    pub entry: Option<u64>,
    pub steps: u64,
}

// One take over I and the first links; links behind `last` count as exhausted.
pub fn take_one(rule: Rule, a: &mut [u64], last: usize) -> Taken
    requires { CanTake a.old last }
    ensures { Took a.old a.new last (take_one (key_by rule) (links_from 1 last) (buffers_of a.old)) result.entry result.steps }
{
    let steps = make_ready(rule, a, last);
    let entry = match smaller_head(rule, a, last) {
        None => None,
        Some(Source::First) => Some(hand_out(a, Place::FIRST)),
        Some(Source::Insertion) => Some(hand_out(a, Place::INSERTION)),
    };
    Taken { entry, steps }
}

// The head that a take hands out where A(1) is ready.
pub fn head_now(rule: Rule, a: &[u64], last: usize) -> Option<u64>
    requires { CanTake a.now last }
    ensures { result ≡ head_in (merge_step (key_by rule) (entries (links_from 1 last) (buffers_of a.now)) (insertion (buffers_of a.now))) }
{
    match smaller_head(rule, a, last)? {
        Source::First => Some(buffers::head(a, Place::FIRST.number, Place::FIRST.at)),
        Source::Insertion => Some(buffers::head(a, Place::INSERTION.number, Place::INSERTION.at)),
    }
}

// How many entries stand in I and in the first links, so many of them.
fn held_now(a: &[u64], links: usize) -> u64
    requires { Inside a.now × (links ≤ links_in a.now) }
    ensures { result ≡ held_from 0 (buffer_count links) (buffers_of a.now) }
{
    let end = Link::at(links + 1).first();
    let mut sum: u64 = 0;
    for n in 0..end {
        sum += buffers::count(a, n) as u64;
    }
    sum
}

// What emptying brought: how many entries, and the merge steps made.
#[derive(Clone, Copy)]
pub struct Emptied {
    pub count: usize,
    pub steps: u64,
}

// Takes all that I and the first links hold out into the work area; links behind `last` count as exhausted.
pub fn take_all(rule: Rule, a: &mut [u64], last: usize, work: &mut [u64]) -> Emptied
    requires { CanEmpty a.old last work.old }
    ensures { TookAll a.old a.new last (take_all (key_by rule) (links_from 1 last) (buffers_of a.old)) work.old work.new result.count result.steps }
{
    let count = held_now(a, last) as usize;
    let mut steps: u64 = 0;
    for place in &mut work[..count] {
        let taken = take_one(rule, a, last);
        *place = taken.entry.unwrap();
        steps += taken.steps;
    }
    Emptied { count, steps }
}
