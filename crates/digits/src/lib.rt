// Numbers written in any base up to 36.
#![tactic(auto)]

ghost use Rattle.std.specs.Prelude.{◌≡◌, ◌<◌, ◌≤◌, length};
ghost use Rattle.digits.specs.Written.{digit_of, written};

// The digit of a value: a figure, or a capital letter above 9.
#[tactic(auto, unfolding(crate::specs::Written::digit_of))]
pub fn digit_of(value: u8) -> u8
    requires { value < 36 }
    ensures { result ≡ digit_of value }
{
    if value < 10 {
        value + b'0'
    } else {
        value - 10 + b'A'
    }
}

// Fills a field with the last digits of a number, from its end.
#[tactic(auto, using(crate::proofs::PutLaws::one_more), unfolding(crate::specs::Written::written))]
pub fn put<const BASE: u64>(field: &mut [u8], n: u64)
    requires some { 1 ≤ BASE }
    requires few { BASE ≤ 36 }
    ensures { field.new ≡ written BASE (length field.old) n }
{
    let mut rest = n;
    for i in (0..field.len()).rev() {
        field[i] = digit_of((rest % BASE) as u8);
        rest /= BASE;
    }
}
