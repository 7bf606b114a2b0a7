//! The mutations of a script, read from the tree of its JSON.
ghost use Rattle.std.specs.Prelude.{◌≡◌, ◌⊎◌, None, Some, IfOk, IfErr};
ghost use Rattle.serde_json.specs.View.{view};
ghost use Rattle.fr_cli_json.specs.Mutations.{operand_of, mutation_named, mutation_of, batch_of};

use super::{into_items, into_one_member, read_pair};
use crate::fault::CliFault;
use crate::mutations::Mutations;
use fr_base::Bytes;
use fr_mutation::{AtomicOp, Mutation};
use serde_json::Value;
use std::alloc::Global;

/// Reads a batch: an array of mutations.
pub fn read_batch(alloc: Global, value: Value) -> Result<Mutations, CliFault>
    ensures ok { IfOk result (λ batch. batch_of (view value) ≡ Some batch) }
    ensures bad { result ≡ Err CliFault.BadScript → batch_of (view value) ≡ None }
    ensures fault { IfErr result (λ e. (e ≡ CliFault.BadScript) ⊎ (e ≡ CliFault.Memory)) }
{
    let Some(items) = into_items(value) else {
        return Err(CliFault::BadScript);
    };
    let mut mutations = Vec::with_capacity(alloc, items.len())?;
    for item in items {
        mutations.push(read_mutation(alloc, item)?)?;
    }
    Ok(Mutations::from_vec(mutations))
}

/// Reads a mutation: an object of one member, which names it.
fn read_mutation(alloc: Global, value: Value) -> Result<Mutation, CliFault>
    ensures ok { IfOk result (λ mutation. mutation_of (view value) ≡ Some mutation) }
    ensures bad { result ≡ Err CliFault.BadScript → mutation_of (view value) ≡ None }
    ensures fault { IfErr result (λ e. (e ≡ CliFault.BadScript) ⊎ (e ≡ CliFault.Memory)) }
{
    match into_one_member(value) {
        Some((name, fields)) => read_named(alloc, name.as_str(), &fields),
        None => Err(CliFault::BadScript),
    }
}

/// Reads the fields of the mutation of a name.
fn read_named(alloc: Global, name: &str, fields: &Value) -> Result<Mutation, CliFault>
    ensures ok { IfOk result (λ mutation. mutation_named name.now (view fields.now) ≡ Some mutation) }
    ensures bad { result ≡ Err CliFault.BadScript → mutation_named name.now (view fields.now) ≡ None }
    ensures fault { IfErr result (λ e. (e ≡ CliFault.BadScript) ⊎ (e ≡ CliFault.Memory)) }
{
    match name {
        "set" => {
            let (key, value) = read_pair(alloc, fields, "key", "value")?;
            Ok(Mutation::Set { key, value })
        }
        "clear" => {
            let (begin, end) = read_pair(alloc, fields, "begin", "end")?;
            Ok(Mutation::Clear { begin, end })
        }
        _ => match AtomicOp::from_name(name) {
            Some(op) => {
                let (key, param) = read_operand(alloc, op, fields)?;
                Ok(Mutation::Atomic { op, key, param })
            }
            None => Err(CliFault::BadScript),
        },
    }
}

/// Reads the key and the operand of an atomic operation.
fn read_operand(alloc: Global, op: AtomicOp, fields: &Value) -> Result<(Bytes, Bytes), CliFault>
    ensures ok { IfOk result (λ pair. operand_of op (view fields.now) ≡ Some pair) }
    ensures bad { result ≡ Err CliFault.BadScript → operand_of op (view fields.now) ≡ None }
    ensures fault { IfErr result (λ e. (e ≡ CliFault.BadScript) ⊎ (e ≡ CliFault.Memory)) }
{
    read_pair(alloc, fields, "key", op.operand_name())
}
