//! A byte string, seen by contracts as the list of its bytes.
ghost use Rattle.std.specs.Prelude.{◌≡◌, [], Some, refl, length, IfOk};
ghost use Rattle.std.proofs.Common.{rules};
ghost use Rattle.std.specs.Cmp.{partial_equiv_from_equiv};
ghost use Rattle.std.specs.Cmp.Lexicographic.{nat_list_eq_equiv, nat_list_cmp_total, texts_ties, texts_po};
ghost use Rattle.fr_base.specs.Bytes.{bytes_cmp, bytes_eq};

use crate::memory::Memory;
use crate::order::order;
use std::alloc::Global;
use std::cmp::Ordering;
use std::marker::Model;

/// A byte string that owns its bytes.
#[derive(Clone, Debug, Drop)]
pub struct Bytes {
    content: Vec<u8>,
}

impl Model for Bytes {
    ghost use Rattle.std.specs.Prelude.{List, ℕ};

    ghost Value = { List ℕ };

    ghost view = { λ b. b.content.items };
}

impl Bytes {
    /// The empty byte string.
    pub fn empty(alloc: Global) -> Self
        ensures { result ≡ [] }
    {
        Bytes {
            content: Vec::new(alloc),
        }
    }

    /// The bytes of a vector. It takes no memory.
    pub fn from_vec(content: Vec<u8>) -> Self
        ensures { result ≡ content.items }
    {
        Bytes { content }
    }

    /// A copy of a slice of bytes.
    pub fn from_slice(alloc: Global, bytes: &[u8]) -> Result<Self, Memory>
        ensures { IfOk result (λ b. b ≡ bytes.now) }
    {
        Ok(Bytes {
            content: Vec::from_slice(alloc, bytes)?,
        })
    }

    /// Gives the vector back. It takes no memory.
    pub fn into_vec(self) -> Vec<u8>
        ensures { result.items ≡ self }
    {
        self.content
    }

    /// The bytes.
    pub fn as_slice(&self) -> &[u8]
        ensures { result.now ≡ self.now }
    {
        self.content.as_slice()
    }

    /// How many bytes there are.
    pub fn len(&self) -> usize
        ensures { result ≡ length self.now }
    {
        self.content.len()
    }

    /// An equal byte string.
    pub fn copy(&self) -> Result<Self, Memory>
        ensures { IfOk result (λ b. b ≡ self.now) }
    {
        Ok(self.clone()?)
    }
}

impl PartialEq for Bytes {
    ghost eq = { bytes_eq };

    ghost laws = { partial_equiv_from_equiv nat_list_eq_equiv };

    fn eq(&self, other: &Bytes) -> bool {
        self.content.as_slice() == other.content.as_slice()
    }
}

impl Eq for Bytes {
    ghost laws = { nat_list_eq_equiv };
}

impl PartialOrd for Bytes {
    ghost partial_cmp = { λ a b. Some (bytes_cmp a b) };

    ghost laws = { texts_po };

    fn partial_cmp(&self, other: &Bytes) -> Option<Ordering> {
        Some(self.cmp(other))
    }
}

impl Ord for Bytes {
    ghost cmp = { bytes_cmp };

    ghost total = { nat_list_cmp_total };

    ghost matches_partial_cmp = { λ a b. refl };

    ghost matches_eq = { texts_ties };

    fn cmp(&self, other: &Bytes) -> Ordering {
        order(self.content.as_slice(), other.content.as_slice())
    }
}
