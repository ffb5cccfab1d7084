// Mergers: filling a buffer from its inputs, down the tree.
#![tactic(auto)]

ghost use Rattle.std.specs.Prelude.{◌≡◌, ℕ, suc, ◌+◌, ◌*◌, ◌≤◌, ◌<◌, min, leb, length};
ghost use Rattle.rules.specs.Entries.{key_by};
ghost use Rattle.rules.specs.Links.{capacity, most_links, book_words};
ghost use Rattle.rules.specs.Fill.{fill};
ghost use Rattle.buffers.specs.Format.{count_of, head_of, buffer_of, buffers_of};
ghost use Rattle.buffers.specs.Post.{Has};
ghost use Rattle.runs.specs.Until.{until_empty};
ghost use Rattle.mergers.specs.Moves.{run_length};
ghost use Rattle.mergers.specs.Subtree.{subtree, first_input, second_input, second_link};
ghost use Rattle.mergers.specs.Fills.{CanFill, Did};
ghost use Rattle.mergers.specs.Post.{wanted, At, Spot, Placed, Moving, Fed, Ran, wanted_in, moved_by, seen_if, CanMerge, CanTurn, HasMerged, HasTurned};

use rules::{Link, Rule};
use runs::Run;
use std::ops::Range;

// A buffer: its number, and the word at which its slots begin.
#[derive(Clone, Copy)]
pub struct Place {
    pub number: usize,
    pub at: usize,
}

impl Place {
    // I, and A(1) behind it.
    pub const INSERTION: Self = Self {
        number: 0,
        at: Link::BOOK,
    };

    pub const FIRST: Self = Self {
        number: 1,
        at: Link::BOOK + Link::INSERTION,
    };

    // The words at which its entries stand.
    #[tactic(auto, using(buffers::proofs::ArrayLaws::buffer_length))]
    fn entries(self, a: &[u64]) -> Range<usize>
        requires { At a.now self.number self.at }
        ensures start { result.start ≡ head_of a.now self.number }
        ensures end { result.end ≡ head_of a.now self.number + count_of a.now self.number }
    {
        let start = self.at + buffers::start_place(a, self.number);
        start..start + buffers::count(a, self.number)
    }
}

// Where link i's buffer j is.
#[tactic(auto, using(crate::proofs::SubtreeLaws::first_below, crate::proofs::SubtreeLaws::base_here, crate::proofs::SubtreeLaws::slot_small))]
pub fn place_of(i: usize, j: usize) -> Place
    requires { Spot i j }
    ensures { Placed i j result.number result.at }
{
    let number = Link::at(i).first() + j;
    if Link::MOST < i {
        return Place { number, at: 0 };
    }
    Place {
        number,
        at: Link::BOOK + Link::at(i).slot(j),
    }
}

// The first input of the merger whose output is buffer j of its link.
pub fn first_input(j: usize) -> usize
    requires { j < book_words }
    ensures { result ≡ first_input j }
{
    if j == 0 { 1 } else { 2 * j }
}

// Its second input, and the link that has it.
pub fn second_input(j: usize) -> usize
    requires { j < book_words }
    ensures { result ≡ second_input j }
{
    if j == 0 { 0 } else { 2 * j + 1 }
}

pub fn second_link(i: usize, j: usize) -> usize
    requires { i ≤ most_links }
    ensures { result ≡ second_link i j }
{
    if j == 0 { i + 1 } else { i }
}

// A merger: its output with its capacity, and its two inputs; the first is buffer `first` of the same link, the second is buffer `second` of link `link`.
#[derive(Clone, Copy)]
pub struct Merger {
    pub out: Place,
    pub room: usize,
    pub one: Place,
    pub first: usize,
    pub two: Place,
    pub second: usize,
    pub link: usize,
}

// The merger whose output is link i's buffer j.
#[tactic(auto, using(crate::proofs::SubtreeLaws::first_spot, crate::proofs::SubtreeLaws::second_spot))]
pub fn merger_of(i: usize, j: usize) -> Merger
    requires { Fed i j }
    ensures out { Placed i j result.out.number result.out.at }
    ensures room { result.room ≡ capacity i j }
    ensures one { Placed i (first_input j) result.one.number result.one.at }
    ensures first { result.first ≡ first_input j }
    ensures two { Placed (second_link i j) (second_input j) result.two.number result.two.at }
    ensures second { result.second ≡ second_input j }
    ensures link { result.link ≡ second_link i j }
{
    let first = first_input(j);
    let second = second_input(j);
    let link = second_link(i, j);
    Merger {
        out: place_of(i, j),
        room: Link::at(i).capacity(j),
        one: place_of(i, first),
        first,
        two: place_of(link, second),
        second,
        link,
    }
}

// Whether an input is to be filled: it is empty and not known to be exhausted.
#[tactic(auto, using(buffers::proofs::ArrayLaws::buffer_length))]
pub fn wants(a: &[u64], n: usize) -> bool
    requires { Has a.now n }
    ensures { result ≡ wanted a.now n }
{
    buffers::count(a, n) == 0 && !buffers::exhausted(a, n)
}

// Whether an input in link i is to be filled, where links behind `last` count as exhausted.
pub fn wants_in(a: &[u64], last: usize, i: usize, n: usize) -> bool
    requires { i ≤ last → Has a.now n }
    ensures { result ≡ wanted_in a.now last i n }
{
    i <= last && wants(a, n)
}

// Merge steps from one input alone, until it is empty or the room used up.
pub fn move_steps(a: &mut [u64], out: Place, room: usize, one: Place) -> usize
    requires { Moving a.old out.number out.at room one.number one.at }
    ensures value { result ≡ min room (length (buffer_of a.old one.number)) }
    ensures ran { Ran a.old a.new out.number one.number one.number (moved_by result a.old out.number one.number) }
{
    let moved = room.min(buffers::count(a, one.number));
    let from = one.entries(a).start;
    let to = out.entries(a).end;
    runs::move_run(a, to, from, moved);
    buffers::grow(a, out.number, moved);
    buffers::drop_front(a, one.number, moved);
    moved
}

impl Merger {
    // Merge steps from both inputs, until one is empty or so much room used up.
    pub fn merge_both(self, rule: Rule, a: &mut [u64], room: usize) -> usize
        requires { CanMerge a.old self room }
        ensures value { result ≡ until_empty (key_by rule) room (buffer_of a.old self.one.number) (buffer_of a.old self.two.number) }
        ensures ran { HasMerged (key_by rule) a.old a.new self result }
    {
        let one = self.one.entries(a);
        let two = self.two.entries(a);
        let to = self.out.entries(a).end;
        let Run { moved, first } = runs::merge_run(rule, a, to..to + room, one, two);
        buffers::grow(a, self.out.number, moved);
        buffers::drop_front(a, self.one.number, first);
        buffers::drop_front(a, self.two.number, moved - first);
        moved
    }

    // Merge steps from both inputs, until one that has entries is empty or so much room used up.
    pub fn merge_steps(self, rule: Rule, a: &mut [u64], room: usize) -> usize
        requires { CanMerge a.old self room }
        ensures value { result ≡ run_length (key_by rule) room (buffer_of a.old self.one.number) (buffer_of a.old self.two.number) }
        ensures ran { HasMerged (key_by rule) a.old a.new self result }
    {
        if buffers::count(a, self.one.number) == 0 {
            return move_steps(a, self.out, room, self.two);
        }
        if buffers::count(a, self.two.number) == 0 {
            return move_steps(a, self.out, room, self.one);
        }
        self.merge_both(rule, a, room)
    }

    // Merge steps of one turn, for which there is so much room; where the second input's link lies behind `last`, it counts as exhausted.
    #[tactic(auto, using(crate::proofs::TurnLaws::run_one))]
    pub fn turn_steps(self, rule: Rule, a: &mut [u64], last: usize, room: usize) -> usize
        requires { CanTurn a.old last self room }
        ensures value { result ≡ run_length (key_by rule) room (buffer_of a.old self.one.number) (seen_if (leb self.link last) (buffer_of a.old self.two.number)) }
        ensures ran { HasTurned (key_by rule) (leb self.link last) a.old a.new self result }
    {
        if self.link <= last {
            return self.merge_steps(rule, a, room);
        }
        move_steps(a, self.out, room, self.one)
    }
}

// Fills link i's buffer j, which is empty: merge steps until it is full or nothing is left below. Links behind `last` count as exhausted. Answers the merge steps.
pub fn fill(rule: Rule, a: &mut [u64], last: usize, i: usize, j: usize) -> u64
    requires { CanFill a.old last i j }
    ensures { Did a.old a.new (subtree last i j) (fill (key_by rule) (subtree last i j) (buffers_of a.old)) result }
{
    if Link::at(i).k() <= j {
        return 0;
    }
    let v = merger_of(i, j);
    let n = v.out.number;
    buffers::settle(a, n, 0);
    let mut steps: u64 = 0;
    let mut filled: usize = 0;
    while filled < v.room {
        let x = if wants_in(a, last, i, v.one.number) {
            fill(rule, a, last, i, v.first)
        } else {
            0
        };
        let y = if wants_in(a, last, v.link, v.two.number) {
            fill(rule, a, last, v.link, v.second)
        } else {
            0
        };
        let m = v.turn_steps(rule, a, last, v.room - filled);
        steps += x + y + m as u64;
        if m == 0 {
            if filled == 0 {
                buffers::exhaust(a, n);
            }
            return steps;
        }
        filled += m;
    }
    steps
}
