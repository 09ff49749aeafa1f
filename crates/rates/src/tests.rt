// Rate steps, run: factors, ratios, sizes, equality, least natural rates and words.
use crate::{NotAFactor, Overflow, RateStep};
use std::test::Fail;
use steps::Step;

fn times(a: &RateStep, b: &RateStep) -> Result<RateStep, Fail> {
    let Some(step) = a.compose(b) else {
        return Err(Fail::new("no step"));
    };
    Ok(step)
}

// up / down
fn ratio(up: u32, down: u32) -> Result<RateStep, Fail> {
    times(
        &RateStep::try_from(up)?,
        &RateStep::try_from(down)?.inverse(),
    )
}

// a power of a factor
fn power(factor: u32, times_over: u32) -> Result<RateStep, Fail> {
    let factor = RateStep::try_from(factor)?;
    let mut power = <RateStep as Step>::unit();
    for _ in 0..times_over {
        power = times(&power, &factor)?;
    }
    Ok(power)
}

// The greatest common divisor, by Euclid's algorithm.
fn divisor(a: u32, b: u32) -> u32 {
    let mut a = a;
    let mut b = b;
    for _ in 0..64 {
        if b == 0 {
            return a;
        }
        (a, b) = (b, a % b);
    }
    0
}

#[test]
fn factors_from_1_to_64(rt: HostRuntime) -> Result<(), Fail> {
    for factor in 1..65 {
        assert_eq!(rt; RateStep::try_from(factor)?.ratio(), Ok((factor, 1)));
    }
    assert_eq!(rt; RateStep::try_from(0), Err(NotAFactor(0)));
    assert_eq!(rt; RateStep::try_from(65), Err(NotAFactor(65)));
    assert_eq!(rt; RateStep::try_from(4294967295), Err(NotAFactor(4294967295)));
    Ok(())
}

#[test]
fn ratios_have_no_common_factor(rt: HostRuntime) -> Result<(), Fail> {
    for up in 1..65 {
        for down in 1..65 {
            let common = divisor(up, down);
            assert!(rt; common > 0);
            assert_eq!(rt; ratio(up, down)?.ratio(), Ok((up / common, down / common)));
        }
    }
    Ok(())
}

#[test]
fn numbers_end_at_4294967295(rt: HostRuntime) -> Result<(), Fail> {
    let below = power(2, 31)?;
    assert_eq!(rt; below.ratio(), Ok((2147483648, 1)));
    assert_eq!(rt; below.inverse().ratio(), Ok((1, 2147483648)));
    let above = power(2, 32)?;
    assert_eq!(rt; above.ratio(), Err(Overflow));
    assert_eq!(rt; above.inverse().ratio(), Err(Overflow));
    // 4294964250, the largest number that these primes make below the limit
    let nearest = times(
        &times(&RateStep::try_from(50)?, &power(3, 5)?)?,
        &times(&RateStep::try_from(5)?, &RateStep::try_from(19)?)?,
    )?;
    let nearest = times(&nearest, &power(61, 2)?)?;
    assert_eq!(rt; nearest.ratio(), Ok((4294964250, 1)));
    Ok(())
}

#[test]
fn numbers_beyond_64_bits_are_refused(rt: HostRuntime) -> Result<(), Fail> {
    // a power that is too large by itself, and powers that are so together
    assert_eq!(rt; power(2, 64)?.ratio(), Err(Overflow));
    assert_eq!(rt;
        times(&power(2, 40)?, &power(3, 30)?)?.ratio(),
        Err(Overflow)
    );
    Ok(())
}

#[test]
fn sizes_compose_up_to_67108864(rt: HostRuntime) -> Result<(), Fail> {
    let two = RateStep::try_from(2)?;
    let mut largest = two;
    for _ in 0..26 {
        largest = times(&largest, &largest)?;
    }
    assert_eq!(rt; largest.size(), 67108864);
    assert!(rt; largest.compose(&two).is_none());
    assert!(rt; largest.compose(&RateStep::try_from(3)?).is_none());
    assert!(rt; largest.compose(&<RateStep as Step>::unit()).is_some());
    assert_eq!(rt; largest.ratio(), Err(Overflow));
    Ok(())
}

#[test]
fn sizes_are_the_largest_exponents(rt: HostRuntime) -> Result<(), Fail> {
    assert_eq!(rt; <RateStep as Step>::largest(), 6);
    assert_eq!(rt; <RateStep as Step>::unit().size(), 0);
    assert_eq!(rt; RateStep::try_from(64)?.size(), 6);
    assert_eq!(rt; RateStep::try_from(61)?.inverse().size(), 1);
    assert_eq!(rt;
        times(&RateStep::try_from(64)?, &RateStep::try_from(2)?)?.size(),
        7
    );
    assert_eq!(rt; ratio(27, 32)?.size(), 5);
    Ok(())
}

#[test]
fn different_factors_are_different_steps(rt: HostRuntime) -> Result<(), Fail> {
    for a in 1..65 {
        for b in 1..65 {
            assert_eq!(rt;
                RateStep::try_from(a)?.equals(&RateStep::try_from(b)?),
                a == b
            );
        }
    }
    assert!(rt; ratio(6, 4)?.equals(&ratio(3, 2)?));
    Ok(())
}

#[test]
fn least_factors(rt: HostRuntime) -> Result<(), Fail> {
    assert!(rt; RateStep::least_factor(&[]).is_none());
    let two = RateStep::least_factor(&[ratio(1, 6)?, ratio(1, 4)?]);
    assert_eq!(rt; two.map(|factor| factor.ratio()), Some(Ok((12, 1))));
    let three = RateStep::least_factor(&[ratio(4, 3)?, ratio(6, 1)?, ratio(10, 9)?]);
    assert_eq!(rt; three.map(|factor| factor.ratio()), Some(Ok((9, 2))));
    Ok(())
}

#[test]
fn measures_of_factors_are_common_divisors(rt: HostRuntime) -> Result<(), Fail> {
    for a in 1..65 {
        for b in 1..65 {
            assert_eq!(rt;
                RateStep::try_from(a)?
                    .measure(&RateStep::try_from(b)?)
                    .ratio(),
                Ok((divisor(a, b), 1))
            );
        }
    }
    Ok(())
}

#[test]
fn rates_and_refusals_in_words(rt: HostRuntime) -> Result<(), Fail> {
    let alloc = rt.alloc();
    assert_eq!(rt; ratio(6, 4)?.to_string(alloc)?.as_str(), "3/2");
    assert_eq!(rt; power(2, 32)?.to_string(alloc)?.as_str(), "too large");
    assert_eq!(rt;
        power(2, 32)?.inverse().to_string(alloc)?.as_str(),
        "too large"
    );
    assert_eq!(rt;
        NotAFactor(65).to_string(alloc)?.as_str(),
        "65 is no factor"
    );
    Ok(())
}
