//! Storage servers, in bytes.
ghost use Rattle.std.specs.Prelude.{◌≡◌, ◌≢◌, ◌↔◌, None, Some, option_map};
ghost use Rattle.fr_undo.specs.Undo.{value_undone};
ghost use Rattle.fr_part.specs.Reads.{IfStorage, unread_of};
ghost use Rattle.fr_part.specs.declared.fault.ReadRefusal.TheVariants as unread;
ghost use Rattle.fr_part.specs.Answers.{IsGiven, IsShort};
ghost use Rattle.fr_part.specs.ReadCalls.{IsPast, shard_from, unread_said, unread_status};
ghost use Rattle.fr_part.specs.Calls.{IfFound, Over};

use fr_part::Handle;
use fr_part::calls::storages::{KeyAt, read_in};
use std::alloc::Global;

/// Gives the value that a key had at a version, of a storage server of the shard from `begin` on and below `end`, if
/// that has bytes. It is no turn.
#[unsafe(no_mangle)]
pub extern "C" fn fdbrec_storage_read(
    alloc: Global,
    of: &mut Handle,
    what: &KeyAt<'_>,
    out: &mut [u8],
    len: &mut usize,
) -> u32
    ensures same { of.new.value ≡ of.old.value }
    ensures ok { Over of.old.value of.new.value result
        (λ old new. result ≡ 0 → IfStorage new.part
        (λ s. IfFound (value_undone s.store what.now.version what.now.key.now) (λ value. IsGiven value out.new len.new))) }
    ensures short { Over of.old.value of.new.value result
        (λ old new. result ≡ 3 → IfStorage new.part
        (λ s. IfFound (value_undone s.store what.now.version what.now.key.now) (λ value. IsShort value out.new len.new))) }
    ensures none { Over of.old.value of.new.value result
        (λ old new. result ≡ 11 → IfStorage new.part (λ s. value_undone s.store what.now.version what.now.key.now ≡ None)) }
    ensures not_mine { Over of.old.value of.new.value result (λ old new. result ≡ 12
        → unread_of new.part (shard_from what.now.begin.now what.now.end.now) what.now.key.now what.now.version ≡ Some unread.NotMine) }
    ensures too_old { Over of.old.value of.new.value result (λ old new. result ≡ 13
        → unread_of new.part (shard_from what.now.begin.now what.now.end.now) what.now.key.now what.now.version ≡ Some unread.TooOld) }
    ensures future_version { Over of.old.value of.new.value result (λ old new. result ≡ 14
        → unread_of new.part (shard_from what.now.begin.now what.now.end.now) what.now.key.now what.now.version ≡ Some unread.FutureVersion) }
    ensures limit { Over of.old.value of.new.value result
        (λ old new. (result ≡ 6) ↔ IsPast what.now.begin.now what.now.end.now what.now.version) }
    ensures kind { Over of.old.value of.new.value result (λ old new. result ≡ 4
        → unread_of new.part (shard_from what.now.begin.now what.now.end.now) what.now.key.now what.now.version ≡ Some unread.Kind) }
    ensures part { Over of.old.value of.new.value result (λ old new. result ≡ 9
        → unread_of new.part (shard_from what.now.begin.now what.now.end.now) what.now.key.now what.now.version ≡ Some unread.Part) }
    ensures refused { Over of.old.value of.new.value result (λ old new. result ≢ 1 → result ≢ 6 → unread_said result
        ≡ option_map unread_status (unread_of new.part (shard_from what.now.begin.now what.now.end.now) what.now.key.now what.now.version)) }
{
    with_seat!(alloc, of, seat => read_in(alloc, &mut seat.part, what, out, len))
}
