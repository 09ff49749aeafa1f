// Exponents, one for each listed prime.
ghost use Rattle.std.specs.Prelude.{EachIndex, get_or, pos, ◌≡◌, ◌+◌, ◌≤◌, map, ◌+ℤ◌, neg_ℤ, unsigned_abs};
ghost use borrow.Author.Differences.{up};
ghost use Rattle.std.specs.Int.{int_min};
ghost use Rattle.steps.specs.Kind.{limit};
ghost use Rattle.fractions.specs.Exponents.{added, negated, minima, norm};
ghost use Rattle.fractions.specs.Powers.{product as powers};
ghost use Rattle.rates.specs.Calls.{Bounded};
ghost use Rattle.rates.specs.Listed.{listed};

use crate::primes::{COUNT, PRIMES};
use std::array;

// The largest numerator or denominator.
const LARGEST_NUMBER: u64 = 4294967295;

fn sum(left: i32, right: i32) -> i32
    requires { unsigned_abs left + unsigned_abs right ≤ limit }
    ensures { result ≡ left +ℤ right }
{
    left + right
}

fn opposite(exponent: i32) -> i32
    requires { unsigned_abs exponent ≤ limit }
    ensures { result ≡ neg_ℤ exponent }
{
    -exponent
}

fn lesser(left: i32, right: i32) -> i32
    ensures { result ≡ int_min left right }
{
    left.min(right)
}

// The exponent, or 0 where it is negative.
fn positive_part(exponent: i32) -> u32
    ensures { result ≡ up exponent }
{
    u32::try_from(exponent).unwrap_or(0)
}

// The largest exponent, without its sign.
pub(crate) fn largest(exponents: &[i32; COUNT]) -> u32
    ensures { result ≡ norm exponents.now }
{
    let sizes = exponents.iter().map(|exponent| exponent.unsigned_abs());
    sizes.max().unwrap_or(0)
}

// What the function gives of each exponent. (The array's own `map` goes through an iterator by value, and takes about ten times as long.)
fn each<F: Fn(i32) -> i32>(exponents: &[i32; COUNT], turn: F) -> [i32; COUNT]
    requires { EachIndex exponents.now (λ i. F.pre turn (get_or exponents.now i (pos 0))) }
    ensures { EachIndex exponents.now (λ i. F.post turn (get_or exponents.now i (pos 0)) (get_or result i (pos 0))) }
{
    array::from_fn(|i| turn(exponents[i]))
}

// What the function gives of each two exponents of one prime.
fn joined<F: Fn(i32, i32) -> i32>(
    left: &[i32; COUNT],
    right: &[i32; COUNT],
    join: F,
) -> [i32; COUNT]
    requires { EachIndex left.now (λ i. F.pre join (get_or left.now i (pos 0)) (get_or right.now i (pos 0))) }
    ensures { EachIndex left.now (λ i. F.post join (get_or left.now i (pos 0)) (get_or right.now i (pos 0)) (get_or result i (pos 0))) }
{
    array::from_fn(|i| join(left[i], right[i]))
}

pub(crate) fn sums(left: &[i32; COUNT], right: &[i32; COUNT]) -> [i32; COUNT]
    requires { norm left.now + norm right.now ≤ limit }
    ensures { result ≡ added left.now right.now }
{
    joined(left, right, sum)
}

pub(crate) fn opposites(exponents: &[i32; COUNT]) -> [i32; COUNT]
    requires { norm exponents.now ≤ limit }
    ensures { result ≡ negated exponents.now }
{
    each(exponents, opposite)
}

// The lesser exponent of each prime.
pub(crate) fn minima(left: &[i32; COUNT], right: &[i32; COUNT]) -> [i32; COUNT]
    ensures { result ≡ minima left.now right.now }
{
    joined(left, right, lesser)
}

// The number, where it is not too large. The limit is a rule, and only happens to be that of `u32`: so no `try_from`.
fn bounded(number: u64) -> Option<u32>
    ensures { Bounded number result }
{
    (number <= LARGEST_NUMBER).then(|| number as u32)
}

// The product of the powers with positive exponents, where it is not too large.
pub(crate) fn product(exponents: &[i32; COUNT]) -> Option<u32>
    ensures { Bounded (powers listed (map up exponents.now)) result }
{
    let mut product: u64 = 1;
    for (prime, exponent) in PRIMES.iter().zip(exponents) {
        let times = positive_part(*exponent);
        // most exponents are 0, and their powers change nothing
        if times > 0 {
            let power = prime.checked_pow(times)?;
            product = product.checked_mul(power)?;
        }
    }
    bounded(product)
}
