ghost use Rattle.std.specs.Prelude.{◌≡◌, ◌++◌, max, if◌then◌else◌, IfOk, OnOk};
ghost use Rattle.ndc_domain.specs.Records.{Rise};
ghost use Rattle.ndc_domain.specs.Merge.{merged_record, merged, brings, merge_count};

use crate::record::DomainRecord;
use ndc_event::OutOfMemory;
use std::alloc::Global;
use std::cmp::Ordering;

/// The greater of two numbers.
fn greater(one: u64, two: u64) -> u64
    ensures { result ≡ max one two }
{
    if one < two { two } else { one }
}

/// The record of both: the greater versions, the days of the greater config version, the members of
/// both.
fn merged_record(ours: &DomainRecord, theirs: &DomainRecord) -> Result<DomainRecord, OutOfMemory>
    ensures { IfOk result (λ both. both ≡ merged_record ours.now theirs.now) }
{
    Ok(DomainRecord {
        name: ours.name.try_copy()?,
        version: greater(ours.version, theirs.version),
        config: greater(ours.config, theirs.config),
        days: if ours.config < theirs.config {
            theirs.days
        } else {
            ours.days
        },
        members: ours.members.union(theirs.members),
    })
}

/// Whether their record changes ours.
fn brings(ours: &DomainRecord, theirs: &DomainRecord) -> bool
    ensures { result ≡ brings ours.now theirs.now }
{
    ours.version < theirs.version
        || ours.config < theirs.config
        || ours.members.union(theirs.members) != ours.members
}

/// One where their record changes ours, else none.
fn change_count(ours: &DomainRecord, theirs: &DomainRecord) -> u64
    ensures { result ≡ if brings ours.now theirs.now then 1 else 0 }
{
    u64::from(brings(ours, theirs))
}

/// How many of their records are added to ours or change one. Both are gone over once, side by side.
pub(crate) fn merge_count(records: &[DomainRecord], others: &[DomainRecord]) -> u64
    requires ours { Rise records.now }
    requires theirs { Rise others.now }
    ensures { result ≡ merge_count records.now others.now }
{
    let mut count = 0;
    let mut ours = 0;
    let mut theirs = 0;
    while ours < records.len() && theirs < others.len() {
        let one = &records[ours];
        let other = &others[theirs];
        match one.name.cmp(&other.name) {
            Ordering::Less => {
                ours += 1;
            }
            Ordering::Equal => {
                count += change_count(one, other);
                ours += 1;
                theirs += 1;
            }
            Ordering::Greater => {
                count += 1;
                theirs += 1;
            }
        }
    }
    count + (others.len() - theirs) as u64
}

/// Puts copies of the records after the others.
fn push_copies(all: &mut Vec<DomainRecord>, records: &[DomainRecord]) -> Result<(), OutOfMemory>
    ensures { OnOk result (all.new.items ≡ all.old.items ++ records.now) }
{
    for record in records {
        all.push(record.try_copy()?)?;
    }
    Ok(())
}

/// The records of both in order of name; of two records of one name their merged record.
pub(crate) fn merged(
    alloc: Global,
    records: &[DomainRecord],
    others: &[DomainRecord],
) -> Result<Vec<DomainRecord>, OutOfMemory>
    ensures { IfOk result (λ all. all.items ≡ merged records.now others.now) }
{
    let mut all = Vec::with_capacity(alloc, records.len() + others.len())?;
    let mut ours = 0;
    let mut theirs = 0;
    while ours < records.len() && theirs < others.len() {
        match records[ours].name.cmp(&others[theirs].name) {
            Ordering::Less => {
                all.push(records[ours].try_copy()?)?;
                ours += 1;
            }
            Ordering::Equal => {
                all.push(merged_record(&records[ours], &others[theirs])?)?;
                ours += 1;
                theirs += 1;
            }
            Ordering::Greater => {
                all.push(others[theirs].try_copy()?)?;
                theirs += 1;
            }
        }
    }
    push_copies(&mut all, &records[ours..])?;
    push_copies(&mut all, &others[theirs..])?;
    Ok(all)
}
