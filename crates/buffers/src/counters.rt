// The link number, the rule, and the counters c(1) to c(L).
ghost use Rattle.std.specs.Prelude.{◌≡◌, ◌<◌, ◌≤◌, length};
ghost use Rattle.buffers.specs.Format.{links_in, counter_in, rule_in};
ghost use Rattle.buffers.specs.Post.{Inside};
ghost use Rattle.buffers.specs.Counters.{HasCounter, CounterPut};

use rules::Rule;

// How many links the queue has, as its book says.
pub fn links(a: &[u64]) -> u64
    requires { 0 < length a.now }
    ensures { result ≡ links_in a.now }
{
    a[0]
}

// By what the queue orders its entries; no word of the book says anything of it yet.
pub fn rule(a: &[u64]) -> Rule
    ensures { result ≡ rule_in a.now }
{
    Rule {}
}

// c(i).
pub fn counter(a: &[u64], i: usize) -> u64
    requires { HasCounter a.now i }
    ensures { result ≡ counter_in a.now i }
{
    a[i]
}

// c(i) becomes c, and c(1) .. c(i-1) become 1.
pub fn put_counter(a: &mut [u64], i: usize, c: u64)
    requires { HasCounter a.old i }
    ensures { CounterPut a.old a.new i c }
{
    crate::fresh::write(a, 1, i, 1);
    a[i] = c;
}
