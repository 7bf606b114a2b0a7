//! How many logs a generation has, and on how many of them each tag is.
ghost use Rattle.std.specs.Prelude.{◌≡◌, ◌≤◌};
ghost use Rattle.fr_base.specs.Shape.{shape_of};

use std::marker::Model;

/// How many logs a generation has (`m`), and on how many of them each tag is (`k`, the degree of replication):
/// 1 <= k <= m <= 16. Tag t is on the logs `(t + i) mod m` for i from 0 to k - 1.
#[derive(Clone, Copy, Debug, PartialEq, Eq)]
pub struct Shape {
    m: u8,
    k: u8,
}

impl Model for Shape {
    ghost use Rattle.fr_base.specs.Shape.{ShapeContent, IsShape};

    ghost Value = { ShapeContent };

    ghost view = { λ s. record { m = s.m; k = s.k } };

    ghost invariant = { λ s. IsShape (record { m = s.m; k = s.k }) };

    ghost inverse = { λ c. record { m = c.m; k = c.k } };
}

impl Shape {
    /// The shape of so many logs and this degree, if 1 <= k <= m <= 16.
    pub fn new(m: u8, k: u8) -> Option<Self>
        ensures value { result ≡ shape_of m k }
    {
        if k >= 1 && k <= m && m <= 16 {
            Some(Shape { m, k })
        } else {
            None
        }
    }

    /// How many logs there are: 1 to 16.
    pub fn m(self) -> u8
        ensures value { result ≡ self.m }
        ensures some { 1 ≤ result }
        ensures few { result ≤ 16 }
    {
        self.m
    }

    /// On how many of them each tag is: 1 to all of them.
    pub fn k(self) -> u8
        ensures value { result ≡ self.k }
        ensures some { 1 ≤ result }
        ensures fits { result ≤ self.m }
        ensures few { self.m ≤ 16 }
    {
        self.k
    }
}
