ghost use Rattle.std.specs.Prelude.{◌≡◌};
ghost use Rattle.mig_exercise.specs.Numbers.{number, next_number as number_after};

const MULTIPLIER: u64 = 6364136223846793005;

const INCREMENT: u64 = 1442695040888963407;

/// The number behind this one.
pub(crate) fn next_number(number: u64) -> u64
    ensures { result ≡ number_after number }
{
    number.wrapping_mul(MULTIPLIER).wrapping_add(INCREMENT)
}

/// The number in front of number `count` behind the seed; in front of the first is the seed.
pub(crate) fn number_before(seed: u64, count: u64) -> u64
    ensures { number_after result ≡ number seed count }
{
    let mut last = seed;
    for i in 0..count {
        last = next_number(last);
    }
    last
}
