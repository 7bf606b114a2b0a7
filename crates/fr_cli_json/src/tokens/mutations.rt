//! The mutations of a script, read from the tokens of its text.
ghost use Rattle.std.specs.Prelude.{◌≡◌, ◌<◌, length, IfOk, OnOk};
ghost use Rattle.fr_cli_json.specs.Mutations.{mutation_named, mutation_of, batch_of};
ghost use Rattle.fr_cli_json.specs.Tokens.{Gives};

use super::{Unread, close_object, open_array, open_object, read_pair};
use crate::mutations::Mutations;
use fr_mutation::{AtomicOp, Mutation};
use json::Reader;
use std::alloc::Global;

/// Reads a batch: an array of mutations.
pub fn read_batch(alloc: Global, reader: &mut Reader<'_>) -> Result<Mutations, Unread>
    ensures value { IfOk result (λ batch. Gives batch_of 123 reader.old batch reader.new) }
    ensures shorter { OnOk result (length reader.new < length reader.old) }
{
    open_array(reader)?;
    let mut mutations = Vec::new(alloc);
    while !reader.take_end_array() {
        mutations.push(read_mutation(alloc, reader)?)?;
    }
    mutations.shrink_to_fit();
    Ok(Mutations::from_vec(mutations))
}

/// Reads a mutation: an object of one member, which names it.
fn read_mutation(alloc: Global, reader: &mut Reader<'_>) -> Result<Mutation, Unread>
    ensures value { IfOk result (λ mutation. Gives mutation_of 122 reader.old mutation reader.new) }
    ensures shorter { OnOk result (length reader.new < length reader.old) }
{
    open_object(reader)?;
    let Some(name) = reader.next_key()? else {
        return Err(Unread::Unusual);
    };
    let mutation = read_named(alloc, reader, name)?;
    close_object(reader)?;
    Ok(mutation)
}

/// Reads the fields of the mutation of a name.
fn read_named(alloc: Global, reader: &mut Reader<'_>, name: &str) -> Result<Mutation, Unread>
    ensures value { IfOk result (λ mutation. Gives (mutation_named name.now) 121 reader.old mutation reader.new) }
    ensures shorter { OnOk result (length reader.new < length reader.old) }
{
    match name {
        "set" => {
            let (key, value) = read_pair(alloc, reader, "key", "value")?;
            Ok(Mutation::Set { key, value })
        }
        "clear" => {
            let (begin, end) = read_pair(alloc, reader, "begin", "end")?;
            Ok(Mutation::Clear { begin, end })
        }
        _ => match AtomicOp::from_name(name) {
            Some(op) => {
                let (key, param) = read_pair(alloc, reader, "key", op.operand_name())?;
                Ok(Mutation::Atomic { op, key, param })
            }
            None => Err(Unread::Unusual),
        },
    }
}
