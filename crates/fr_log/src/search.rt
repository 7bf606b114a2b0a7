//! Finding records by their versions.
ghost use Rattle.std.specs.Prelude.{◌≡◌, ◌≤◌, ◌++◌, nat_lt, length, take, fold, filter, IfOk, if◌then◌else◌};
ghost use Rattle.std.specs.List.Sorted.{IsNonDecreasingBy};
ghost use Rattle.fr_log.specs.Search.{seeded_records, pushed_records};

use crate::pushes::Pushes;
use crate::records::{PeekedRecord, SeedRecord};
use fr_base::{Memory, Tag, Version};
use std::alloc::Global;

/// The records of a seed above a version, found by halving.
pub(crate) fn seeded_above(records: &[SeedRecord], after: Version) -> &[SeedRecord]
    requires { IsNonDecreasingBy (λ r. r.version) records.now }
    ensures { result.now ≡ filter (λ r. nat_lt after r.version) records.now }
{
    // `<=` leaves out the record at `after`, which the caller has.
    let at = records.partition_point(|record| record.version <= after);
    &records[at..]
}

/// The first `most` records of a tag in a seed and then in the pushes above a version, and whether more
/// remain.
pub(crate) fn gather(
    alloc: Global,
    records: &[SeedRecord],
    pushes: &Pushes,
    tag: Tag,
    after: Version,
    most: usize,
) -> Result<(Vec<PeekedRecord>, bool), Memory>
    ensures given { IfOk result (λ found. found.0.items
        ≡ take most (seeded_records tag records.now ++ pushed_records tag
        (filter (λ p. nat_lt after p.version) pushes.now))) }
    ensures more { IfOk result (λ found. found.1
        ≡ nat_lt most (length (seeded_records tag records.now ++ pushed_records tag
        (filter (λ p. nat_lt after p.version) pushes.now)))) }
{
    let mut given = Vec::new(alloc);
    // The seed comes first, because its versions are at most `seeded_to` and those of pushes above (invariant 1): so
    // the records rise.
    if gather_seeded(alloc, records, tag, most, &mut given)? {
        return Ok((given, true));
    }
    let more = pushes.gather(tag, after, most, &mut given)?;
    Ok((given, more))
}

/// Appends the records of a tag in a seed until there are `most`, and says whether more remain.
fn gather_seeded(
    alloc: Global,
    records: &[SeedRecord],
    tag: Tag,
    most: usize,
    given: &mut Vec<PeekedRecord>,
) -> Result<bool, Memory>
    requires { length given.old.items ≤ most }
    ensures given { IfOk result (λ _. given.new.items ≡ take most (given.old.items ++ seeded_records tag records.now)) }
    ensures more { IfOk result (λ more. more ≡ nat_lt most (length (given.old.items ++ seeded_records tag records.now))) }
{
    for record in records {
        if record.tag == tag {
            if given.len() == most {
                return Ok(true);
            }
            given.push(PeekedRecord {
                version: record.version,
                batch: record.batch.copy()?,
            })?;
        }
    }
    Ok(false)
}

/// The version through which given records are complete: that of the last one if more remain, else
/// the greatest version that is held.
pub(crate) fn upto(given: &[PeekedRecord], more: bool, durable: Version) -> Version
    ensures { result ≡ (if more then fold (λ version r. r.version) durable given.now else durable) }
{
    if !more {
        // Nothing was left out, so the answer is complete through all that the log holds. Otherwise the storage
        // server of an idle tag would never advance.
        return durable;
    }
    match given.last() {
        // More of the tag's records remain, so the answer may claim no version past the last one given.
        Some(last) => last.version,
        None => durable,
    }
}
