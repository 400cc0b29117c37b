ghost use Rattle.std.specs.Prelude.{◌≡◌, ◌<◌, ◌++◌, All, map, IfOk, OnOk};
ghost use Rattle.ndc_domain.specs.Members.{members_of};
ghost use Rattle.ndc_event.specs.Outcome.{Gives};
ghost use Rattle.ndc_node_frames.specs.Parts.{members_shape, member_value, cluster_of, number_of, are_members};
ghost use Rattle.ndc_node_shapes.specs.Read.{read_of};
ghost use Rattle.ndc_node_shapes.specs.Text.{text_of};
ghost use Rattle.ndc_node_shapes.specs.declared.fault.Fault.TheVariants.{Memory};

use crate::piece::{MAX_LEVEL, take_items, take_small};
use ndc_domain::{ClusterNo, DomainRecord, Members};
use ndc_event::{Items, Name, OutOfMemory};
use ndc_node_shapes::framed::{push_list, take_list};
use ndc_node_shapes::piece::{
    MAX_VERSION, push_end, push_first, push_next, push_number, take_end, take_first, take_name,
    take_next, take_number,
};
use ndc_node_shapes::{Cause, Fault, Framed};
use std::alloc::Global;

/// The greatest number of a cluster.
const MAX_CLUSTER: u64 = 7;

/// A member of a domain, by its number.
#[derive(Clone, Copy, Debug)]
struct Member {
    number: u32,
}

/// A record that is told.
#[derive(Debug, Drop)]
pub struct ToldRecord {
    /// The record. In a frame its version is 0 to 10^13, and the number of its changes 0 to 10^12.
    pub record: DomainRecord,
}

/// Records that are told, in order.
pub type ToldRecords = Items<ToldRecord>;

impl Framed for Member {
    ghost use Rattle.ndc_node_frames.specs.Parts.{member_shape, member_value};

    ghost shape = { member_shape };

    ghost value = { member_value };

    fn push(&self, text: &mut Vec<u8>) -> Result<(), OutOfMemory> {
        push_number(text, u64::from(self.number))
    }

    fn take(_alloc: Global, left: &[u8]) -> Result<(Member, &[u8]), Fault> {
        let (number, left) = take_number(left, 0, MAX_CLUSTER)?;
        let number = number as u32;
        Ok((Member { number }, left))
    }
}

/// The members, in order.
fn list_of(alloc: Global, members: Members) -> Result<Vec<Member>, OutOfMemory>
    ensures { IfOk result (λ list. map member_value list.items ≡ members) }
{
    let mut list = Vec::new(alloc);
    for number in 0..8 {
        if !members.has(ClusterNo { number }) {
            continue;
        }
        list.push(Member { number })?;
    }
    Ok(list)
}

/// Their clusters.
fn clusters_of(alloc: Global, list: &[Member]) -> Result<Vec<ClusterNo>, OutOfMemory>
    ensures { IfOk result (λ clusters. clusters.items ≡ map cluster_of list.now) }
{
    let mut clusters = Vec::with_capacity(alloc, list.len())?;
    for member in list {
        clusters.push(ClusterNo {
            number: member.number,
        })?;
    }
    Ok(clusters)
}

/// Their numbers.
fn numbers_in(alloc: Global, list: &[Member]) -> Result<Vec<u32>, OutOfMemory>
    ensures { IfOk result (λ numbers. numbers.items ≡ map member_value list.now) }
{
    let mut numbers = Vec::with_capacity(alloc, list.len())?;
    for member in list {
        numbers.push(member.number)?;
    }
    Ok(numbers)
}

/// Appends the list of members.
fn push_members(text: &mut Vec<u8>, members: Members) -> Result<(), OutOfMemory>
    ensures { OnOk result (text.new.items ≡ text.old.items ++ text_of members_shape members) }
{
    let list = list_of(*text.allocator(), members)?;
    push_list(text, list.as_slice())
}

/// Whether the clusters stand in the order of their numbers, each once, as members do.
fn are_members(alloc: Global, clusters: &[ClusterNo], list: &[Member]) -> Result<bool, OutOfMemory>
    requires same { clusters.now ≡ map cluster_of list.now }
    requires below { All (λ cluster. cluster.number < 8) clusters.now }
    ensures { IfOk result (λ are. are ≡ are_members (map member_value list.now)) }
{
    let members = Members::of(clusters);
    let again = list_of(alloc, members)?;
    let sorted = numbers_in(alloc, again.as_slice())?;
    let numbers = numbers_in(alloc, list)?;
    Ok(sorted.as_slice() == numbers.as_slice())
}

/// Takes a list of members, in order, each once.
fn take_members(alloc: Global, left: &[u8]) -> Result<(Vec<ClusterNo>, &[u8]), Fault>
    ensures gives { Gives Memory (λ taken. (map number_of taken.0.items, taken.1.now)) result
        (read_of members_shape left.now) }
    ensures below { IfOk result (λ taken. All (λ cluster. cluster.number < 8) taken.0.items) }
    ensures same { IfOk result (λ taken. members_of taken.0.items ≡ map number_of taken.0.items) }
{
    let (list, rest) = take_list::<Member>(alloc, left)?;
    let clusters = clusters_of(alloc, list.as_slice())?;
    if are_members(alloc, clusters.as_slice(), list.as_slice())? {
        Ok((clusters, rest))
    } else {
        Err(Fault::At {
            cause: Cause::Range,
            left: left.len(),
        })
    }
}

impl Framed for ToldRecord {
    ghost use Rattle.ndc_node_frames.specs.Parts.{record_shape, record_value};

    ghost shape = { record_shape };

    ghost value = { record_value };

    fn push(&self, text: &mut Vec<u8>) -> Result<(), OutOfMemory> {
        push_first(text, "config")?;
        push_number(text, self.record.config)?;
        push_next(text, "days")?;
        push_number(text, u64::from(self.record.days))?;
        push_next(text, "members")?;
        push_members(text, self.record.members)?;
        push_next(text, "name")?;
        self.record.name.push(text)?;
        push_next(text, "version")?;
        push_number(text, self.record.version)?;
        push_end(text)
    }

    fn take(alloc: Global, left: &[u8]) -> Result<(ToldRecord, &[u8]), Fault> {
        let left = take_first(left, "config")?;
        let (config, left) = take_number(left, 0, MAX_LEVEL)?;
        let left = take_next(left, "days")?;
        let (days, left) = take_small(left)?;
        let left = take_next(left, "members")?;
        let (clusters, left) = take_members(alloc, left)?;
        let left = take_next(left, "name")?;
        let (name, left) = take_name(alloc, left)?;
        let left = take_next(left, "version")?;
        let (version, left) = take_number(left, 0, MAX_VERSION)?;
        let left = take_end(left)?;
        let members = Members::of(clusters.as_slice());
        let record = DomainRecord {
            name,
            version,
            config,
            days,
            members,
        };
        Ok((ToldRecord { record }, left))
    }
}
