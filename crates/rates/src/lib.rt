// Rate steps: positive fractions, held as the exponents of listed primes.
#![tactic(auto)]

mod exponents;
mod factors;
mod primes;
mod rate;

pub use rate::{NotAFactor, Overflow, RateStep};

#[cfg(test)]
mod tests;
