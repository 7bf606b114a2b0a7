//! Values of the tree of a script's JSON, read as the script wants them.
ghost use Rattle.std.specs.Prelude.{◌≡◌, ◌⊎◌, None, Some, IfOk, IfErr, option_map, option_and_then, string_bytes};
ghost use Rattle.serde_json.specs.Find.{as_array};
ghost use Rattle.serde_json.specs.View.{view, items_view};
ghost use Rattle.fr_cli_json.specs.Json.{data_of, only, one_member, version_of, bytes_of, pair_of};

mod mutations;

use crate::fault::CliFault;
use crate::hex_text::bytes_in;
use fr_base::{Bytes, Version};
pub use mutations::read_batch;
use serde_json::Value;
use std::alloc::Global;

/// Reads the JSON of an input, and lets the input go.
pub fn read_value(alloc: Global, input: Vec<u8>) -> Result<Value, CliFault>
    ensures ok { IfOk result (λ value. data_of input.items ≡ Some (view value)) }
    ensures bad { result ≡ Err CliFault.BadScript → data_of input.items ≡ None }
    ensures fault { IfErr result (λ e. (e ≡ CliFault.BadScript) ⊎ (e ≡ CliFault.Memory)) }
{
    match Value::from_slice(alloc, input.as_slice()) {
        Ok(value) => Ok(value),
        Err(e) if e.is_memory() => Err(CliFault::Memory),
        Err(_) => Err(CliFault::BadScript),
    }
}

/// The value at the name, in an object of exactly `count` members.
pub fn member_of<'v>(value: &'v Value, count: usize, name: &str) -> Option<&'v Value>
    ensures { option_map (λ v. view v.now) result ≡ only count name.now (view value.now) }
{
    if value.as_object()?.len() == count {
        value.get(name)
    } else {
        None
    }
}

/// The value at the name, in an object of exactly `count` members, taken out of it.
pub fn take_member(value: &mut Value, count: usize, name: &str) -> Option<Value>
    ensures { option_map view result ≡ only count name.now (view value.old) }
{
    if value.as_object()?.len() != count {
        return None;
    }
    Some(value.get_mut(name)?.take())
}

/// The name and the value of an object's one member.
pub fn into_one_member(value: Value) -> Option<(String, Value)>
    ensures { option_map (λ m. (string_bytes m.0, view m.1)) result ≡ one_member (view value) }
{
    let Value::Object(mut members) = value else {
        return None;
    };
    if members.len() == 1 {
        members.pop_first()
    } else {
        None
    }
}

/// The items of an array.
pub fn into_items(value: Value) -> Option<Vec<Value>>
    ensures { option_map (λ items. items_view items.items) result ≡ as_array (view value) }
{
    match value {
        Value::Array(items) => Some(items),
        _ => None,
    }
}

/// A version: a number below 2^62, written in digits alone.
pub fn read_version(value: &Value) -> Option<Version>
    ensures { result ≡ version_of (view value.now) }
{
    Version::new(value.as_u64()?)
}

/// The byte strings under two names, in an object of exactly these two.
pub(crate) fn read_pair(
    alloc: Global,
    fields: &Value,
    first: &str,
    second: &str,
) -> Result<(Bytes, Bytes), CliFault>
    ensures ok { IfOk result (λ pair. pair_of first.now second.now (view fields.now) ≡ Some pair) }
    ensures bad { result ≡ Err CliFault.BadScript → pair_of first.now second.now (view fields.now) ≡ None }
    ensures fault { IfErr result (λ e. (e ≡ CliFault.BadScript) ⊎ (e ≡ CliFault.Memory)) }
{
    let first = read_bytes(alloc, member_of(fields, 2, first))?;
    let second = read_bytes(alloc, member_of(fields, 2, second))?;
    Ok((first, second))
}

/// The bytes of a text of lower case hex digits, two a byte.
pub fn read_bytes(alloc: Global, value: Option<&Value>) -> Result<Bytes, CliFault>
    ensures ok { IfOk result (λ bytes. option_and_then bytes_of (option_map (λ v. view v.now) value.entry) ≡ Some bytes) }
    ensures bad { result ≡ Err CliFault.BadScript → option_and_then bytes_of (option_map (λ v. view v.now) value.entry) ≡ None }
    ensures fault { IfErr result (λ e. (e ≡ CliFault.BadScript) ⊎ (e ≡ CliFault.Memory)) }
{
    let Some(text) = value.and_then(Value::as_str) else {
        return Err(CliFault::BadScript);
    };
    match bytes_in(alloc, text.as_bytes())? {
        Some(bytes) => Ok(Bytes::from_vec(bytes)),
        None => Err(CliFault::BadScript),
    }
}
