//! The options of `end`.
ghost use Rattle.std.specs.Prelude.{◌≡◌, ◌≤◌, ◌↔◌, IsSome, IfSome};

use std::marker::Model;

/// The generation that was locked: how many logs it has, at most 16, and on how many of them each tag is, at least 1.
/// Contracts see it as these two numbers.
#[derive(Clone, Copy, Debug, PartialEq, Eq)]
pub struct EndOptions {
    logs: u8,
    degree: u8,
}

impl Model for EndOptions {
    ghost use Rattle.std.specs.Prelude.{◌≤◌};
    ghost use Rattle.fr_cli_end.specs.Options.{LockedLogs};

    ghost Value = { LockedLogs };

    ghost view = { λ o. record { logs = o.logs; degree = o.degree } };

    ghost invariant = { λ o. (1 ≤ o.degree) × (o.degree ≤ o.logs) × (o.logs ≤ 16) };

    ghost inverse = { λ o. record { logs = o.logs; degree = o.degree } };
}

impl EndOptions {
    /// The generation of these numbers, if `1 <= degree <= logs <= 16`.
    pub fn new(logs: u8, degree: u8) -> Option<Self>
        ensures within { IsSome result ↔ ((1 ≤ degree) × (degree ≤ logs) × (logs ≤ 16)) }
        ensures value { IfSome result (λ o. o ≡ record { logs = logs; degree = degree }) }
    {
        if 1 <= degree && degree <= logs && logs <= 16 {
            Some(EndOptions { logs, degree })
        } else {
            None
        }
    }

    /// How many logs the generation has.
    pub fn logs(self) -> u8
        ensures value { result ≡ self.logs }
        ensures limit { result ≤ 16 }
    {
        self.logs
    }

    /// On how many of them each tag is.
    pub fn degree(self) -> u8
        ensures value { result ≡ self.degree }
        ensures some { 1 ≤ result }
        ensures fits { result ≤ self.logs }
    {
        self.degree
    }
}
