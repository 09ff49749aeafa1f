// The primes whose exponents a rate step holds.
pub(crate) const COUNT: usize = 18;

pub(crate) const PRIMES: [u64; COUNT] = [
    2, 3, 5, 7, 11, 13, 17, 19, 23, 29, 31, 37, 41, 43, 47, 53, 59, 61,
];
