// The joining of two runs, and a part of it, under C names: for compare/ and bench/ alone, in no archive that is shipped.
#![tactic(auto)]

ghost use Rattle.rules.specs.Entries.{the_rule, key_by};
ghost use Rattle.joins.specs.Lent.{Joined, Parted};

use rules::Rule;

// Joins two runs where out has room for both. `handed` says how many entries are handed back; they are copied to rest if it has room for them.
#[unsafe(no_mangle)]
#[tactic(auto, using(runs::proofs::MergeLaws::until_most))]
pub extern "C" fn joins_join<'a>(
    xs: &'a [u64],
    ys: &'a [u64],
    out: &mut [u64],
    rest: &mut [u64],
    handed: &mut usize,
) -> bool
    ensures { Joined (key_by the_rule) xs.now ys.now out.old out.new rest.old rest.new handed.new result }
{
    *handed = 0;
    if out.len() < xs.len() + ys.len() {
        return false;
    }
    let back = runs::join(Rule {}, xs, ys, out);
    *handed = back.len();
    if back.len() <= rest.len() {
        runs::lay(rest, 0, back);
    }
    true
}

// Merges the whole of out where two runs have enough entries for it. `first` says how many are the first run's.
#[unsafe(no_mangle)]
pub extern "C" fn joins_part(xs: &[u64], ys: &[u64], out: &mut [u64], first: &mut usize) -> bool
    ensures { Parted (key_by the_rule) xs.now ys.now out.old out.new first.new result }
{
    *first = 0;
    if xs.len() + ys.len() < out.len() {
        return false;
    }
    *first = runs::part(Rule {}, xs, ys, out);
    true
}
