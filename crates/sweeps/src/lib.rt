// Room in I: a sweep to the lowest link that has a free S, or a packing.
#![tactic(auto)]

ghost use Rattle.std.specs.Prelude.{◌≡◌, ◌<◌, ◌≤◌, MatchOption};
ghost use Rattle.rules.specs.Calls.{queue_of};
ghost use Rattle.buffers.specs.Format.{book_of, lent_of, links_in};
ghost use Rattle.buffers.specs.Post.{Inside};
ghost use Rattle.sweeps.specs.Room.{CanSweep, CanPack, CanMakeRoom, MadeRoom};
ghost use Rattle.rules.specs.Insert.{lowest, swept, packed, make_room};

use paths::Path;
use rules::{Link, Rule};

// The lowest link whose counter says that an S is free, if there is one.
fn lowest(a: &[u64], links: usize) -> Option<usize>
    requires { Inside a.now × (links ≡ links_in a.now) }
    ensures { MatchOption result (links < lowest 1 (book_of a.now).counters) (λ i. (i ≡ lowest 1 (book_of a.now).counters) × (i ≤ links)) }
{
    for i in 1..=links {
        if buffers::counters::counter(a, i) <= Link::at(i).k() as u64 {
            return Some(i);
        }
    }
    None
}

// Sweeps to link i: the path is refilled from the work area, where the emptied run stands at the beginning and the run along the path behind it. Answers the merge steps made while emptying.
fn sweep(rule: Rule, a: &mut [u64], i: usize, work: &mut [u64]) -> u64
    requires { CanSweep rule a.old i work.old }
    ensures { MadeRoom a.old a.new (swept i (queue_of (lent_of a.old))) work.old work.new result }
{
    let c = buffers::counters::counter(a, i);
    let mut path = Path::new();
    path.lead_to(i, c as usize);
    path.note(a);
    let emptied = takes::take_all(rule, a, i - 1, work);
    let from = emptied.count;
    let end = from + path.gather(a, i - 1, work, from);
    let (out, along) = work[..end].split_at(from);
    path.refill(rule, a, along, out);
    buffers::counters::put_counter(a, i, c + 1);
    emptied.steps
}

// Packs a queue of so many links. Answers the merge steps made while emptying.
fn pack(rule: Rule, a: &mut [u64], links: usize, work: &mut [u64]) -> u64
    requires { CanPack rule a.old links work.old }
    ensures { MadeRoom a.old a.new (packed (queue_of (lent_of a.old))) work.old work.new result }
{
    let emptied = takes::take_all(rule, a, links, work);
    let end = emptied.count;
    paths::lay_out(a, links, &work[..end]);
    let used = end.div_ceil(Link::at(links).s());
    buffers::counters::put_counter(a, links, used as u64 + 1);
    emptied.steps
}

// What making room in I cost: the merge steps, and whether it packed.
#[derive(Clone, Copy)]
pub struct Room {
    pub steps: u64,
    pub packed: bool,
}

// Where I has 8: sweeps to the lowest link that has a free S; if there is none, packs.
pub fn make_room(rule: Rule, a: &mut [u64], work: &mut [u64]) -> Room
    requires { CanMakeRoom rule a.old work.old }
    ensures made_room { MadeRoom a.old a.new (make_room (queue_of (lent_of a.old))) work.old work.new result.steps }
    ensures packed_value { result.packed ≡ (make_room (queue_of (lent_of a.old))).packed }
{
    if buffers::count(a, 0) < Link::INSERTION {
        return Room {
            steps: 0,
            packed: false,
        };
    }
    let links = buffers::counters::links(a) as usize;
    match lowest(a, links) {
        Some(i) => Room {
            steps: sweep(rule, a, i, work),
            packed: false,
        },
        None => Room {
            steps: pack(rule, a, links, work),
            packed: true,
        },
    }
}
