// Sets of numbers below 32 as bits of a 32-bit number.
#![tactic(auto)]

ghost use Rattle.std.specs.Prelude.{◌≡◌, ℕ, ◌^◌, ◌<◌, true, not, ◌&&◌, ◌||◌, ◌==◌, bit_or, bit_xor};
ghost use Rattle.bits.specs.Bits.{is_set, Lowest};

// The least of a set that is not empty.
pub fn lowest(x: u32) -> u8
    requires { 0 < x }
    ensures { Lowest x result }
{
    x.trailing_zeros() as u8
}

// A set that is not empty, without its least.
pub fn without_lowest(x: u32) -> u32
    requires { 0 < x }
    ensures bits { (k j : ℕ) → Lowest x k → is_set result j ≡ (not (j == k) && is_set x j) }
    ensures less { result < x }
{
    x & (x - 1)
}

// A set with k in it.
pub fn with(x: u32, k: u8) -> u32
    requires { k < 32 }
    ensures bits { (j : ℕ) → is_set result j ≡ (j == k || is_set x j) }
    ensures number { result ≡ bit_or x (2 ^ k) }
{
    x | (1 << k)
}

// A set without k, which is in it.
pub fn without(x: u32, k: u8) -> u32
    requires { (k < 32) × (is_set x k ≡ true) }
    ensures bits { (j : ℕ) → is_set result j ≡ (not (j == k) && is_set x j) }
    ensures less { result < x }
    ensures number { result ≡ bit_xor x (2 ^ k) }
{
    x ^ (1 << k)
}

// Whether k is in a set.
pub fn has(x: u32, k: u8) -> bool
    requires { k < 32 }
    ensures { result ≡ is_set x k }
{
    (x >> k) & 1 == 1
}
