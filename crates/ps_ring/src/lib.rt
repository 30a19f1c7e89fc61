//! Phases and angles as whole units modulo 2^32, and the numbers that amplitudes are.
#![tactic(auto)]

pub mod angle;
pub mod laws;
pub mod phase;

pub use angle::Angle;
pub use phase::Phase;

#[cfg(test)]
mod tests {
    use super::*;

    #[test]
    fn phases_and_angles(rt: HostRuntime) {
        let half = Phase::of(1 << 31);
        for (got, want) in [
            (half.double().units(), 0),
            (half.add(half).units(), 0),
            (half.neg().units(), 1 << 31),
            (Phase::of(1).neg().units(), u32::MAX),
            (Phase::of(0).neg().units(), 0),
            (Phase::of(0).power(), 32),
            (Phase::of(3 << 28).power(), 28),
            (Phase::of(5).power(), 0),
            (Angle::of(3 << 30).units(), 3 << 30),
            (Angle::of(3 << 30).half().units(), 3 << 30),
            (Angle::of(3 << 30).whole().units(), 1 << 31),
        ] {
            assert_eq!(rt; got, want);
        }
    }
}
