// The order rule: the look that an audit takes at the entries themselves.
#![tactic(auto)]

ghost use Rattle.std.specs.Prelude.{◌≡◌};
ghost use Rattle.rules.specs.Entries.{key_by};
ghost use Rattle.rules.specs.Tree.{tree_of};
ghost use Rattle.rules.specs.Order.{ascends, ordered, in_order};
ghost use Rattle.buffers.specs.Format.{links_in, buffer_of, buffers_of};
ghost use Rattle.buffers.specs.Post.{Inside};
ghost use Rattle.mergers.specs.Post.{At};
ghost use Rattle.mergers.specs.Subtree.{subtree};
ghost use Rattle.order.specs.Walk.{last_entry, CanWalk};

use mergers::Place;
use rules::{Link, Rule};

// Whether a buffer ascends from the entry `low` on, equal neighbours allowed.
pub fn ascends(rule: Rule, a: &[u64], place: Place, low: u64) -> bool
    requires { At a.now place.number place.at }
    ensures { result ≡ ascends (key_by rule) (key_by rule low) (buffer_of a.now place.number) }
{
    let mut last = low;
    for e in buffers::entries(a, place.number, place.at) {
        if !runs::goes_first(rule, last, *e) {
            return false;
        }
        last = *e;
    }
    true
}

// A buffer's last entry. An empty buffer hands on `low`, so that what is nearer the root still binds what is below.
pub fn last_entry(a: &[u64], place: Place, low: u64) -> u64
    requires { At a.now place.number place.at }
    ensures { result ≡ last_entry low (buffer_of a.now place.number) }
{
    buffers::entries(a, place.number, place.at)
        .last()
        .copied()
        .unwrap_or(low)
}

// Whether link i's buffer j and all below it keep the order rule; `low` is the last entry nearer the root.
pub fn ordered(rule: Rule, a: &[u64], links: usize, i: usize, j: usize, low: u64) -> bool
    requires { CanWalk a.now links i j }
    ensures { result ≡ ordered (key_by rule) (subtree links i j) (key_by rule low) (buffers_of a.now) }
{
    if links < i {
        return true;
    }
    let place = mergers::place_of(i, j);
    if !ascends(rule, a, place, low) {
        return false;
    }
    if Link::at(i).k() <= j {
        return true;
    }
    let last = last_entry(a, place, low);
    ordered(rule, a, links, i, mergers::first_input(j), last)
        && ordered(
            rule,
            a,
            links,
            mergers::second_link(i, j),
            mergers::second_input(j),
            last,
        )
}

// Whether the entries keep the order rule. No key is below that of 0, so that I and A(1) ascend from 0 on.
pub fn in_order(rule: Rule, a: &[u64]) -> bool
    requires { Inside a.now }
    ensures { result ≡ in_order (key_by rule) (tree_of (links_in a.now)) (buffers_of a.now) }
{
    let outside = ascends(rule, a, Place::INSERTION, 0);
    let links = buffers::counters::links(a) as usize;
    outside && ordered(rule, a, links, 1, 0, 0)
}
