//! The mutations of a script's batches.
ghost use Rattle.std.specs.Prelude.{◌≡◌};

use fr_mutation::Mutation;
use std::marker::Model;

/// Mutations that act from first to last, within the limits of a batch or beyond them. Contracts see
/// it as the list of them.
#[derive(Debug, Drop)]
pub struct Mutations {
    mutations: Vec<Mutation>,
}

impl Model for Mutations {
    ghost use Rattle.std.specs.Prelude.{List};
    ghost use Rattle.fr_mutation.specs.declared.mutation.Mutation.{Mutation};

    ghost Value = { List Mutation };

    ghost view = { λ b. b.mutations.items };
}

impl Mutations {
    /// The mutations of a vector. It takes no memory.
    pub fn from_vec(mutations: Vec<Mutation>) -> Self
        ensures { result ≡ mutations.items }
    {
        Mutations { mutations }
    }

    /// Gives the vector back. It takes no memory.
    pub fn into_vec(self) -> Vec<Mutation>
        ensures { result.items ≡ self }
    {
        self.mutations
    }
}
