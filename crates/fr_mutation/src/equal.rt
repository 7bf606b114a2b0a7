//! Equality of batches.
ghost use Rattle.std.specs.Cmp.{partial_equiv_from_equiv};
ghost use Rattle.fr_base.specs.Same.{IsSameness-equivalence};
ghost use Rattle.fr_mutation.specs.Equal.{is_same_batch, is_same_batch-IsSameness};

use crate::batch::Batch;

impl PartialEq for Batch {
    ghost eq = { is_same_batch };

    ghost laws = { partial_equiv_from_equiv (IsSameness-equivalence is_same_batch-IsSameness) };

    fn eq(&self, other: &Batch) -> bool {
        self.mutations() == other.mutations()
    }
}

impl Eq for Batch {
    ghost laws = { IsSameness-equivalence is_same_batch-IsSameness };
}
