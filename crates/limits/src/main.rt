// Prints how large a queue of so many links is, and how long one call on it can run: a line for each number of links.
#![tactic(auto)]

ghost use Rattle.std.specs.Prelude.{◌≡◌, ◌++◌, ◌+◌, ◌*◌, ◌≤◌, ◌<◌, length, OnOk, OnErr};
ghost use Rattle.std.specs.Io.KnownBytes.{Appends};
ghost use Rattle.streams.specs.Fronts.{AppendsFront};
ghost use Rattle.rules.specs.Links.{k, height, capacity, LinkNumber};
ghost use Rattle.rules.specs.Tree.{k_merger};
ghost use Rattle.rules.specs.Bounds.{per_insert, per_packing};
ghost use Rattle.rules.specs.Longest.{risen, longest_take, longest_insert};
ghost use Rattle.limits.specs.Lines.{sizes, inserts, line, lines_to};

use rules::Link;
use std::io;
use std::io::Write;
use text::Line;

// Five lines of 251 bytes at most.
const ROOM: usize = 1255;

// How many S link i has; the fifth link's sizes stand here until a queue may have it.
#[tactic(auto, using(crate::proofs::SizeLaws::fifth_k))]
fn k(i: usize) -> usize
    requires { (1 ≤ i) × (i ≤ 5) }
    ensures { result ≡ k i }
{
    if i > Link::MOST {
        return 32;
    }
    Link::at(i).k()
}

// The capacity of link i's buffer j, which is no S.
fn capacity(i: usize, j: usize) -> usize
    requires { (1 ≤ i) × (i ≤ 5) × (j < k i) }
    ensures { result ≡ capacity i j }
{
    if i > Link::MOST {
        return match j {
            0..=1 => 32768,
            2..=3 => 8,
            4..=7 => 23,
            8..=15 => 182,
            _ => 8,
        };
    }
    Link::at(i).capacity(j)
}

// How many mergers stand one above the other between B(i) and an S.
#[tactic(auto, using(rules::proofs::Sizes::k_some, crate::proofs::SizeLaws::height_log))]
fn height(i: usize) -> usize
    requires { (1 ≤ i) × (i ≤ 5) }
    ensures { result ≡ height i }
{
    k(i).ilog2() as usize
}

// What filling B(i) once can cost at most: j buffers on a level, and so many levels of mergers below them.
fn risen(i: usize) -> usize
    requires { (1 ≤ i) × (i ≤ 5) }
    ensures { result ≡ risen (k_merger i) }
{
    let mut j = 1;
    let mut total = 0;
    for levels in (1..=height(i)).rev() {
        total += j * capacity(i, j) * levels;
        j *= 2;
    }
    total
}

fn longest_take(links: usize) -> usize
    requires { (1 ≤ links) × (links ≤ 5) }
    ensures { result ≡ longest_take links }
{
    let mut total = 0;
    for i in 1..=links {
        total += capacity(i, 0) + risen(i);
    }
    total
}

#[tactic(auto, using(crate::proofs::SizeLaws::height_few, crate::proofs::SizeLaws::most_some, rules::proofs::Table::most_few), unfolding(rules::specs::Longest::longest_insert))]
fn longest_insert(links: usize) -> usize
    requires { LinkNumber links }
    ensures { result ≡ longest_insert links }
{
    (links + height(links)) * (Link::at(links).most() - Link::INSERTION)
}

#[tactic(auto, using(rules::proofs::Table::at_link), unfolding(rules::specs::Bounds::per_insert))]
fn per_insert(links: usize) -> usize
    requires { LinkNumber links }
    ensures { result ≡ per_insert links }
{
    match links {
        1 => 2,
        2 => 6,
        3 => 13,
        _ => 22,
    }
}

#[tactic(auto, using(crate::proofs::SizeLaws::height_few, rules::proofs::Table::most_few), unfolding(rules::specs::Bounds::per_packing))]
fn per_packing(links: usize) -> usize
    requires { LinkNumber links }
    ensures { result ≡ per_packing links }
{
    (links + height(links)) * Link::at(links).most()
}

fn lay_sizes(out: &mut Line<ROOM>, links: usize)
    requires { (1 ≤ links) × (length out.old + 85 ≤ ROOM) }
    ensures text { out.new ≡ out.old ++ sizes links }
    ensures few { length out.new ≤ length out.old + 85 }
{
    if links > Link::MOST {
        return;
    }
    let last = Link::at(links);
    out.field(b"  array ", last.words() as u64);
    out.field(b"  work ", last.most() as u64);
    out.field(b"  entries ", last.most() as u64);
}

fn lay_inserts(out: &mut Line<ROOM>, links: usize)
    requires { (1 ≤ links) × (length out.old + 104 ≤ ROOM) }
    ensures text { out.new ≡ out.old ++ inserts links }
    ensures few { length out.new ≤ length out.old + 104 }
{
    if links > Link::MOST {
        return;
    }
    out.field(b"  longest insert ", longest_insert(links) as u64);
    out.field(b"  per insert ", per_insert(links) as u64);
    out.field(b"  per packing ", per_packing(links) as u64);
}

// Of links that no queue has yet, the longest take alone. 251 bytes are room for every line.
fn lay_line(out: &mut Line<ROOM>, links: usize)
    requires { (1 ≤ links) × (links ≤ 5) × (length out.old + 251 ≤ ROOM) }
    ensures text { out.new ≡ out.old ++ line links }
    ensures few { length out.new ≤ length out.old + 251 }
{
    out.field(b"links ", links as u64);
    lay_sizes(out, links);
    out.field(b"  longest take ", longest_take(links) as u64);
    lay_inserts(out, links);
    out.text(b"\n");
}

// The lines for one to five links.
fn lay_lines() -> Line<ROOM>
    ensures { result ≡ lines_to 5 }
{
    let mut out = Line::new();
    for links in 1..=5 {
        lay_line(&mut out, links);
    }
    out
}

// Writes the lines out.
fn write_lines<W: Write>(output: &mut W) -> io::Result<()>
    ensures ok { OnOk result (Appends (W.contents output.old) (W.contents output.new) (lines_to 5)) }
    ensures err { OnErr result (AppendsFront (W.contents output.old) (W.contents output.new) (lines_to 5)) }
{
    let out = lay_lines();
    streams::write_whole(output, out.as_slice())
}

fn main(rt: HostRuntime) -> io::Result<()> {
    write_lines(&mut rt.stdout())
}
