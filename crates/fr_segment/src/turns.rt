//! Records in one of two files in turn, so that the old ones can be let go.
ghost use Rattle.std.specs.Prelude.{◌≡◌, ◌↔◌, ◌+◌, ◌-◌, ◌^◌, ◌<◌, ◌≤◌, ◌∷◌, ◌++◌, min, length, IsTrue, IfOk};
ghost use Rattle.fr_segment.specs.File.{behind, body, groups_from, guard};
ghost use Rattle.fr_segment.specs.Header.{header};
ghost use Rattle.fr_segment.specs.Group.{records_of};

mod file;
mod opening;
mod reopen;

use crate::health::Health;
use crate::segment::Segment;
use crate::spell::{behind_gate, group_len, headed_body};
use crate::whose::header;
use fr_base::{Bytes, Memory};
use fr_record::Device;
use std::alloc::Global;
use std::marker::Model;

/// Four bytes spell the length of a group, so a group is shorter.
const LIMIT: usize = 4_294_967_295;

/// Records in one of two files, each on a device of its own. `replace` begins the older file anew with the next number.
#[derive(Drop)]
pub struct Segments<D: Device> {
    current: Segment<D>,
    other: D,
    number: u64,
    identity: Bytes,
    health: Health,
}

impl<D: Device> Model for Segments<D> {
    ghost use Rattle.fr_segment.specs.Way.{TurnsFile};
    ghost use Rattle.fr_segment.specs.Health.{AreInTurn};

    ghost Value = { TurnsFile D };

    ghost view = { λ s. record {
      current = s.current.device;
      other = s.other;
      groups = s.current.groups;
      number = s.number;
      identity = s.identity;
      health = s.health;
    } };

    ghost invariant = { λ s. AreInTurn D.disk s.current s.other s.number s.identity s.health };
}

/// The first group of the next file: its number, its header, and the bytes that are put behind the gate.
#[derive(Drop)]
struct Next {
    number: u64,
    header: Vec<u8>,
    new: Vec<u8>,
}

/// A capacity as far as groups can use it.
fn limited(capacity: usize) -> usize
    ensures { result ≡ min capacity (2 ^ 32 - 1) }
{
    if capacity < LIMIT { capacity } else { LIMIT }
}

impl<D: Device> Segments<D> {
    /// How many bytes the header takes of the group that it begins.
    fn front(&self) -> usize
        ensures value { result ≡ length self.now.identity + 19 }
        ensures brief { result < 2 ^ 32 }
    {
        self.identity.as_slice().len() + 19
    }

    /// Whether a group has room in the current file, with so many bytes free behind it.
    fn has_room(&self, group: &[Vec<u8>], spare: usize) -> bool
        ensures value { IsTrue result ↔ (length (groups_from 0 self.now.groups) + length (body (records_of group.now)) + 24 + spare
            ≤ min (D.capacity_of self.now.current) (2 ^ 32 - 1)) }
    {
        // No sum is greater than it is in fact, and none that is cut off has room.
        let need = self
            .current
            .used()
            .saturating_add(group_len(group))
            .saturating_add(24)
            .saturating_add(spare);
        need <= limited(self.current.capacity())
    }

    /// Whether a file of one group that begins with a header has room on the other device.
    fn has_next_room(&self, group: &[Vec<u8>]) -> bool
        ensures value { IsTrue result ↔ (length self.now.identity + 19 + length (body (records_of group.now)) + 24
            ≤ min (D.capacity_of self.now.other) (2 ^ 32 - 1)) }
    {
        let need = self
            .front()
            .saturating_add(group_len(group))
            .saturating_add(24);
        need <= limited(self.other.capacity())
    }

    /// The first group of the next file, for which there is room.
    fn next(&self, alloc: Global, group: &[Vec<u8>]) -> Result<Next, Memory>
        requires { length self.now.identity + 19 + length (body (records_of group.now)) + 24 < 2 ^ 32 }
        ensures number { IfOk result (λ next. next.number ≡ self.now.number + 1) }
        ensures header { IfOk result (λ next. next.header.items ≡ header (self.now.number + 1) self.now.identity) }
        ensures new { IfOk result (λ next. next.new.items
            ≡ behind 0 (header (self.now.number + 1) self.now.identity ∷ records_of group.now) ++ guard 1) }
    {
        let number = match self.number.checked_add(1) {
            Some(number) => number,
            // No pair comes to 2^64 files. It is answered as a want of memory, which changes nothing.
            None => return Err(Memory),
        };
        let header = header(alloc, number, self.identity.as_slice())?;
        let body = headed_body(alloc, &header, group)?;
        let new = behind_gate(alloc, 0, &body)?;
        Ok(Next {
            number,
            header,
            new,
        })
    }
}
