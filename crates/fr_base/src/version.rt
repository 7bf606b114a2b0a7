//! The number of a commit, and how far one commit is above the last.
ghost use Rattle.std.specs.Prelude.{◌≡◌, ◌+◌, ◌<◌, ◌≤◌, ◌^◌, ◌↔◌, IsSome, IfSome};

use std::marker::Model;

/// A commit version, below 2^62. Contracts see it as its number.
#[derive(Clone, Copy, Debug, PartialEq, Eq, PartialOrd, Ord)]
pub struct Version {
    number: u64,
}

impl Model for Version {
    ghost use Rattle.std.specs.Prelude.{ℕ, ◌<◌, ◌^◌};

    ghost Value = { ℕ };

    ghost view = { λ v. v.number };

    ghost invariant = { λ v. v.number < 2 ^ 62 };

    ghost inverse = { λ n. record { number = n } };
}

impl Version {
    /// Version 0, below that of every commit.
    pub const ZERO: Version = Version { number: 0 };

    /// The version of this number, if it is below 2^62.
    pub fn new(number: u64) -> Option<Self>
        ensures within { IsSome result ↔ (number < 2 ^ 62) }
        ensures value { IfSome result (λ v. v ≡ number) }
    {
        if number < 1 << 62 {
            Some(Version { number })
        } else {
            None
        }
    }

    /// The number of the version.
    pub fn get(self) -> u64
        ensures value { result ≡ self }
        ensures within { result < 2 ^ 62 }
    {
        self.number
    }

    /// The version one below, of each but version 0.
    pub fn before(self) -> Option<Self>
        ensures there { IsSome result ↔ (1 ≤ self) }
        ensures value { IfSome result (λ v. v + 1 ≡ self) }
    {
        if self.number == 0 {
            None
        } else {
            Some(Version {
                number: self.number - 1,
            })
        }
    }

    /// The version one above, of each but the greatest.
    pub fn after(self) -> Option<Self>
        ensures there { IsSome result ↔ (self + 1 < 2 ^ 62) }
        ensures value { IfSome result (λ v. v ≡ self + 1) }
    {
        Version::new(self.number + 1)
    }
}

/// How far a sequencer moves from one commit version to the next: 1 to 1,000,000.
#[derive(Clone, Copy, Debug, PartialEq, Eq, PartialOrd, Ord)]
pub struct Step {
    number: u64,
}

impl Model for Step {
    ghost use Rattle.std.specs.Prelude.{ℕ, ◌≤◌};

    ghost Value = { ℕ };

    ghost view = { λ s. s.number };

    ghost invariant = { λ s. (1 ≤ s.number) × (s.number ≤ 1000000) };

    ghost inverse = { λ n. record { number = n } };
}

impl Step {
    /// The step of this number, if it is from 1 to 1,000,000.
    pub fn new(number: u64) -> Option<Self>
        ensures within { IsSome result ↔ ((1 ≤ number) × (number ≤ 1000000)) }
        ensures value { IfSome result (λ s. s ≡ number) }
    {
        if number >= 1 && number <= 1_000_000 {
            Some(Step { number })
        } else {
            None
        }
    }

    /// The step from one version to another, if the second is 1 to 1,000,000 above the first.
    pub fn between(from: Version, to: Version) -> Option<Self>
        ensures within { IsSome result ↔ ((from < to) × (to ≤ from + 1000000)) }
        ensures value { IfSome result (λ s. from + s ≡ to) }
    {
        if from < to {
            Step::new(to.number - from.number)
        } else {
            None
        }
    }

    /// The number of the step.
    pub fn get(self) -> u64
        ensures value { result ≡ self }
        ensures within { (1 ≤ result) × (result ≤ 1000000) }
    {
        self.number
    }
}
