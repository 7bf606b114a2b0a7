//! Byte strings as unsigned numbers, the least byte first.
ghost use Rattle.std.specs.Prelude.{◌≡◌, IfOk, slice_index, length};
ghost use Rattle.std.specs.Ordering.{nat_cmp};
ghost use Rattle.fr_mutation.specs.LittleEndian.{number_of};
ghost use Rattle.fr_mutation.specs.Values.{fitted, sum_of, greater_of, smaller_of};

use fr_base::Memory;
use std::alloc::Global;
use std::cmp::Ordering;

/// The byte at an index, and zero past the end.
pub(crate) fn byte_at(bytes: &[u8], index: usize) -> u8
    ensures { result ≡ slice_index bytes.now index }
{
    bytes.get(index).copied().unwrap_or(0)
}

/// The sum of `old`, fitted to the length of `param`, and `param`. A carry past the last byte is lost.
pub(crate) fn sum(alloc: Global, old: &[u8], param: &[u8]) -> Result<Vec<u8>, Memory>
    ensures { IfOk result (λ bytes. bytes.items ≡ sum_of old.now param.now) }
{
    let mut bytes = Vec::with_capacity(alloc, param.len())?;
    let mut carry: u16 = 0;
    for (i, digit) in param.iter().enumerate() {
        let total = carry + u16::from(byte_at(old, i)) + u16::from(*digit);
        bytes.push((total % 256) as u8)?;
        carry = total / 256;
    }
    Ok(bytes)
}

/// The greater of `old`, fitted to the length of `param`, and `param`.
pub(crate) fn greater(alloc: Global, old: &[u8], param: &[u8]) -> Result<Vec<u8>, Memory>
    ensures { IfOk result (λ bytes. bytes.items ≡ greater_of old.now param.now) }
{
    if compared(old, param).is_lt() {
        Ok(Vec::from_slice(alloc, param)?)
    } else {
        fitted(alloc, old, param.len())
    }
}

/// The smaller of `old`, fitted to the length of `param`, and `param`.
pub(crate) fn smaller(alloc: Global, old: &[u8], param: &[u8]) -> Result<Vec<u8>, Memory>
    ensures { IfOk result (λ bytes. bytes.items ≡ smaller_of old.now param.now) }
{
    if compared(old, param).is_gt() {
        Ok(Vec::from_slice(alloc, param)?)
    } else {
        fitted(alloc, old, param.len())
    }
}

/// The first `len` bytes, with zero bytes past their end.
fn fitted(alloc: Global, bytes: &[u8], len: usize) -> Result<Vec<u8>, Memory>
    ensures { IfOk result (λ fit. fit.items ≡ fitted len bytes.now) }
{
    let mut fit = Vec::with_capacity(alloc, len)?;
    fit.extend_from_slice(&bytes[..len.min(bytes.len())])?;
    fit.resize(len, 0)?;
    Ok(fit)
}

/// How `old`, fitted to the length of `param`, compares to `param`: the highest byte that differs
/// decides.
fn compared(old: &[u8], param: &[u8]) -> Ordering
    ensures { result ≡ nat_cmp (number_of (fitted (length param.now) old.now)) (number_of param.now) }
{
    for i in (0..param.len()).rev() {
        let order = byte_at(old, i).cmp(&param[i]);
        if order.is_ne() {
            return order;
        }
    }
    Ordering::Equal
}
