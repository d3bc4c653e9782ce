//! Pseudorandom numbers. They are the same in each run, so a failure can be repeated. The tests of
//! `probe_map_tests` use them. A draw uses only the upper 31 bits of the
//! state, since the lower bits of a linear congruential generator repeat after few numbers.

/// A linear congruential generator (Knuth, "The Art of Computer Programming", volume 2, section
/// 3.3.4, table 1, line 26).
#[derive(Drop)]
pub(crate) struct Draws(pub(crate) u64);

/// The next number below `limit`. If `limit` is 0, returns 0.
pub(crate) fn draw(draws: &mut Draws, limit: u64) -> u64 {
    draws.0 = draws
        .0
        .wrapping_mul(6_364_136_223_846_793_005)
        .wrapping_add(1_442_695_040_888_963_407);
    (draws.0 >> 33).checked_rem(limit).unwrap_or(0)
}
