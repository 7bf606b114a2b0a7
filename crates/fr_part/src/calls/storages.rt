//! Storage servers, in bytes.
ghost use Rattle.std.specs.Prelude.{◌≡◌, ◌≢◌, ◌↔◌, None, Some, IfOk, option_map};
ghost use Rattle.fr_undo.specs.Undo.{value_undone};
ghost use Rattle.fr_part.specs.Reads.{IfStorage, unread_of};
ghost use Rattle.fr_part.specs.declared.fault.ReadRefusal.TheVariants as unread;
ghost use Rattle.fr_part.specs.Answers.{IsGiven, IsShort};
ghost use Rattle.fr_part.specs.ReadCalls.{IsPast, shard_from, unread_said, unread_status};
ghost use Rattle.fr_part.specs.Calls.{IfFound};

use crate::calls::giving::give;
use crate::calls::status::{
    FUTURE_VERSION, KIND, LIMIT, MEMORY, NONE, NOT_MINE, OK, PART, SHORT, TOO_OLD,
};
use crate::fault::ReadRefusal;
use crate::part::Part;
use fr_base::{Bytes, Memory, Version};
use fr_mutation::{MAX_KEY, Shard};
use std::alloc::Global;

/// A key of a shard, and the version at which it is read. The shard is that of the storage server: from `begin` on, and
/// below `end`, if that has bytes.
#[repr(C)]
#[derive(Clone, Copy)]
pub struct KeyAt<'a> {
    pub begin: &'a [u8],
    pub end: &'a [u8],
    pub key: &'a [u8],
    pub version: u64,
}

/// Gives the value that a key of a shard had at a version.
pub fn read_in(
    alloc: Global,
    part: &mut Part,
    what: &KeyAt<'_>,
    out: &mut [u8],
    len: &mut usize,
) -> u32
    ensures same { part.new ≡ part.old }
    ensures ok { result ≡ 0 → IfStorage part.old
        (λ s. IfFound (value_undone s.store what.now.version what.now.key.now) (λ value. IsGiven value out.new len.new)) }
    ensures short { result ≡ 3 → IfStorage part.old
        (λ s. IfFound (value_undone s.store what.now.version what.now.key.now) (λ value. IsShort value out.new len.new)) }
    ensures none { result ≡ 11 → IfStorage part.old (λ s. value_undone s.store what.now.version what.now.key.now ≡ None) }
    ensures not_mine { result ≡ 12
        → unread_of part.old (shard_from what.now.begin.now what.now.end.now) what.now.key.now what.now.version ≡ Some unread.NotMine }
    ensures too_old { result ≡ 13
        → unread_of part.old (shard_from what.now.begin.now what.now.end.now) what.now.key.now what.now.version ≡ Some unread.TooOld }
    ensures future_version { result ≡ 14
        → unread_of part.old (shard_from what.now.begin.now what.now.end.now) what.now.key.now what.now.version ≡ Some unread.FutureVersion }
    ensures limit { (result ≡ 6) ↔ IsPast what.now.begin.now what.now.end.now what.now.version }
    ensures kind { result ≡ 4
        → unread_of part.old (shard_from what.now.begin.now what.now.end.now) what.now.key.now what.now.version ≡ Some unread.Kind }
    ensures part { result ≡ 9
        → unread_of part.old (shard_from what.now.begin.now what.now.end.now) what.now.key.now what.now.version ≡ Some unread.Part }
    ensures refused { result ≢ 1 → result ≢ 6 → unread_said result
        ≡ option_map unread_status (unread_of part.old (shard_from what.now.begin.now what.now.end.now) what.now.key.now what.now.version) }
{
    let KeyAt {
        begin,
        end,
        key,
        version,
    } = *what;
    let Some(version) = Version::new(version) else {
        return LIMIT;
    };
    if begin.len() > MAX_KEY || end.len() > MAX_KEY {
        return LIMIT;
    }
    let Ok(shard) = shard_from(alloc, begin, end) else {
        return MEMORY;
    };
    let Ok(key) = Bytes::from_slice(alloc, key) else {
        return MEMORY;
    };
    match part.read(alloc, &shard, &key, version) {
        Ok(Some(value)) => if give(value.as_slice(), out, len) {
            OK
        } else {
            SHORT
        },
        Ok(None) => NONE,
        Err(fault) => unread_status(fault),
    }
}

/// The shard from one key up to another one, or to no end if that one is empty.
fn shard_from(alloc: Global, begin: &[u8], end: &[u8]) -> Result<Shard, Memory>
    ensures { IfOk result (λ shard. shard ≡ shard_from begin.now end.now) }
{
    let begin = Bytes::from_slice(alloc, begin)?;
    let end = if end.is_empty() {
        None
    } else {
        Some(Bytes::from_slice(alloc, end)?)
    };
    Ok(Shard { begin, end })
}

/// The status of a read that is not answered.
fn unread_status(fault: ReadRefusal) -> u32
    ensures { result ≡ unread_status fault }
{
    match fault {
        ReadRefusal::Kind => KIND,
        ReadRefusal::Part => PART,
        ReadRefusal::NotMine => NOT_MINE,
        ReadRefusal::TooOld => TOO_OLD,
        ReadRefusal::FutureVersion => FUTURE_VERSION,
        ReadRefusal::Memory => MEMORY,
    }
}
