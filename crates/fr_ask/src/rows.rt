//! The rows that a storage server holds, as its journal tells them.
ghost use Rattle.std.specs.Prelude.{◌≡◌, length, IfOk};
ghost use Rattle.std.specs.Cmp.{partial_equiv_from_equiv};
ghost use Rattle.fr_base.specs.Same.{IsSameness-equivalence};
ghost use Rattle.fr_ask.specs.Rows.{is_same_rows, is_same_rows-IsSameness};

use fr_base::{Bytes, Memory};
use std::marker::Model;

/// Pairs of key and value. Contracts see them as the list of the pairs.
#[derive(Debug, Drop)]
pub struct Rows {
    pairs: Vec<(Bytes, Bytes)>,
}

impl Model for Rows {
    ghost use Rattle.std.specs.Prelude.{List, ℕ};

    ghost Value = { List (List ℕ × List ℕ) };

    ghost view = { λ r. r.pairs.items };
}

impl Rows {
    /// These pairs. It takes no memory.
    pub fn from_vec(pairs: Vec<(Bytes, Bytes)>) -> Self
        ensures { result ≡ pairs.items }
    {
        Rows { pairs }
    }

    /// Gives the pairs back. It takes no memory.
    pub fn into_vec(self) -> Vec<(Bytes, Bytes)>
        ensures { result.items ≡ self }
    {
        self.pairs
    }

    /// The pairs.
    pub fn as_slice(&self) -> &[(Bytes, Bytes)]
        ensures { result.now ≡ self.now }
    {
        self.pairs.as_slice()
    }

    /// How many there are.
    pub fn len(&self) -> usize
        ensures { result ≡ length self.now }
    {
        self.pairs.len()
    }

    /// Equal rows.
    pub fn copy(&self) -> Result<Self, Memory>
        ensures { IfOk result (λ rows. rows ≡ self.now) }
    {
        let mut pairs = Vec::with_capacity(*self.pairs.allocator(), self.pairs.len())?;
        for (key, value) in self.pairs.as_slice() {
            pairs.push((key.copy()?, value.copy()?))?;
        }
        Ok(Rows { pairs })
    }
}

impl PartialEq for Rows {
    ghost eq = { is_same_rows };

    ghost laws = { partial_equiv_from_equiv (IsSameness-equivalence is_same_rows-IsSameness) };

    fn eq(&self, other: &Rows) -> bool {
        self.pairs.as_slice() == other.pairs.as_slice()
    }
}

impl Eq for Rows {
    ghost laws = { IsSameness-equivalence is_same_rows-IsSameness };
}
