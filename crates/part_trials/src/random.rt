// Numbers that look random, the same in each run.

/// The next number of Knuth's linear congruential generator, whose high bits are the random ones.
pub(crate) fn next(state: u64) -> u64 {
    state
        .wrapping_mul(6364136223846793005)
        .wrapping_add(1442695040888963407)
}
