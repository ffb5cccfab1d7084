// The book test: whether the book keeps every book rule. A buffer weighs what stands in it and below it; None is what breaks a rule.
ghost use Rattle.std.specs.Prelude.{◌≡◌};
ghost use Rattle.rules.specs.Book.{sound};
ghost use Rattle.buffers.specs.Format.{book_of};
ghost use Rattle.buffers.specs.Weights.{word_right, link_weight, held_if_sound, HasBook, Stretch, Stretched, Level, Levelled, OfLink, RoomLeft, Linking, Merging, Weighs, AllLinks, FromLink};

use crate::word::Packed;
use rules::Link;

// So many entries may stand in I between calls.
const MOST_INSERTED: u64 = 7;

// Whether a buffer's word keeps the rules; so many entries are held in it and below it.
fn right(w: Packed, capacity: u64, held: u64) -> bool
    ensures { result ≡ word_right w.bits capacity held }
{
    w.start() + w.count() <= capacity && (held == 0 || !w.exhausted())
}

// Weighs a link's buffers low .. high - 1, which no merger feeds. Returns whether they keep the rules, with at most `many` entries in each.
fn stretch(
    a: &[u64],
    first: usize,
    low: usize,
    high: usize,
    capacity: u64,
    many: u64,
    below: &mut [u64; Link::WIDEST],
) -> bool
    requires { Stretch a.now first low high }
    ensures { Stretched a.now below.old below.new first low high capacity many result }
{
    for j in low..high {
        let w = Packed::of(a, first + j);
        let count = w.count();
        if many < count || !right(w, capacity, count) {
            return false;
        }
        below[j] = count;
    }
    true
}

// Weighs the outputs low .. 2 low - 1 of a link's mergers, whose inputs are weighed. Returns whether they keep the rules.
fn level(
    a: &[u64],
    first: usize,
    low: usize,
    capacity: u64,
    below: &mut [u64; Link::WIDEST],
) -> bool
    requires { Level a.now below.old first low }
    ensures { Levelled a.now below.old below.new first low capacity result }
{
    for j in low..2 * low {
        let w = Packed::of(a, first + j);
        let held = w.count() + (below[2 * j] + below[2 * j + 1]);
        if !right(w, capacity, held) {
            return false;
        }
        below[j] = held;
    }
    true
}

// Weighs link i's S. Returns how many entries they, the inner buffers and B may have together; None where the counter or an S breaks a rule.
fn stores(a: &[u64], i: usize, below: &mut [u64; Link::WIDEST]) -> Option<u64>
    requires { OfLink a.now i }
    ensures { RoomLeft a.now below.new i result }
{
    let l = Link::at(i);
    let k = l.k();
    let c = a[i];
    if c < 1 || k as u64 + 1 < c {
        return None;
    }
    let s = l.s() as u64;
    let first = l.first();
    let end = k + (c as usize - 1);
    // A used S may have any count; an unused one none.
    if !stretch(a, first, k, end, s, 65535, below) || !stretch(a, first, end, 2 * k, s, 0, below) {
        return None;
    }
    Some((c - 1) * s)
}

// Weighs link i from A on, with what stands behind it. Its S are weighed, and at most `room` may stand below A. Inline, as `link` is.
#[inline(always)]
fn mergers(
    a: &[u64],
    i: usize,
    behind: u64,
    room: u64,
    below: &mut [u64; Link::WIDEST],
) -> Option<u64>
    requires { Merging a.now below.old i behind room }
    ensures { Weighs result (link_weight a.now i behind) }
{
    let l = Link::at(i);
    let first = l.first();
    let mut low = l.k();
    while 1 < low {
        low /= 2;
        if !level(a, first, low, l.capacity(low) as u64, below) {
            return None;
        }
    }
    let lower = below[1];
    let w = Packed::of(a, first);
    let held = w.count() + (lower + behind);
    if room < lower || !right(w, l.capacity(0) as u64, held) {
        return None;
    }
    Some(held)
}

// Weighs the links from link i on, of which those behind it weigh `behind`. Inline: the compiler then knows each link's sizes.
#[inline(always)]
fn link(
    a: &[u64],
    links: usize,
    i: usize,
    behind: u64,
    below: &mut [u64; Link::WIDEST],
) -> Option<u64>
    requires { Linking a.now links i behind }
    ensures { FromLink a.now links i result }
{
    if links < i {
        return Some(behind);
    }
    let room = stores(a, i, below)?;
    mergers(a, i, behind, room, below)
}

// Weighs all buffers but I, the last link first.
fn links(a: &[u64], l: usize, below: &mut [u64; Link::WIDEST]) -> Option<u64>
    requires { AllLinks a.now l }
    ensures { FromLink a.now l 1 result }
{
    let held = link(a, l, 4, 0, below)?;
    let held = link(a, l, 3, held, below)?;
    let held = link(a, l, 2, held, below)?;
    link(a, l, 1, held, below)
}

// How many entries are held; None where the book breaks a book rule.
pub fn weighed(a: &[u64]) -> Option<u64>
    requires { HasBook a.now }
    ensures { result ≡ held_if_sound (book_of a.now) }
{
    let l = a[0] as usize;
    if l < 1 || Link::MOST < l {
        return None;
    }
    let insertion = Packed::of(a, 0);
    let inserted = insertion.count();
    if MOST_INSERTED < inserted || !right(insertion, Link::INSERTION as u64, inserted) {
        return None;
    }
    let mut below = [0u64; Link::WIDEST];
    let held = inserted + links(a, l, &mut below)?;
    if (Link::at(l).most() as u64) < held {
        return None;
    }
    Some(held)
}

// Whether the book keeps every book rule.
#[tactic(auto, using(crate::proofs::Exact::some_exactly))]
pub fn book_sound(a: &[u64]) -> bool
    requires { HasBook a.now }
    ensures { result ≡ sound (book_of a.now) }
{
    weighed(a).is_some()
}
