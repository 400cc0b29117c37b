ghost use Rattle.std.specs.Prelude.{◌≡◌, ◌≤◌, ◌<◌, ◌^◌, ◌==◌, [], position};
ghost use Rattle.std.specs.Str.{bytes_eq};
ghost use Rattle.ndc_domain.specs.Clusters.{has_name, has_initial, member_fault, fault_from};
ghost use Rattle.ndc_domain.specs.Next.{next_with_rest};

use ndc_event::{Name, OutOfMemory};
use std::marker::Model;
use thiserror::Error;

/// How many clusters there may be.
pub const MAX_CLUSTERS: usize = 8;

/// The greatest increment of versions.
pub const MAX_INCREMENT: u64 = 1_000_000_000_000;

/// The greatest failover version.
pub const MAX_VERSION: u64 = 10_000_000_000_000;

/// A cluster, by its place among the clusters, counted from 0.
#[derive(Clone, Copy, Debug, PartialEq, Eq, PartialOrd, Ord, Hash)]
pub struct ClusterNo {
    /// The place, counted from 0.
    pub number: u32,
}

/// Why an increment and members are not clusters. A place is that of the member that breaks the rule
/// first, counted from 0.
#[derive(Clone, Copy, Debug, PartialEq, Eq, Error)]
pub enum ClustersError {
    #[error("the increment is 0 or above 10^12")]
    IncrementLimit,
    #[error("there is no cluster")]
    NoClusters,
    #[error("there are more than eight clusters")]
    TooMany { place: usize },
    #[error("the cluster at place {place} has the name of an earlier one")]
    SameName { place: usize },
    #[error("the cluster at place {place} has the initial version of an earlier one")]
    SameInitial { place: usize },
    #[error("the initial version of the cluster at place {place} is not below the increment")]
    NotBelowIncrement { place: usize },
    #[error("out of memory")]
    Memory,
}

/// The next version is above 10^13.
#[derive(Clone, Copy, Debug, PartialEq, Eq, Error)]
#[error("the next version is above 10^13")]
pub struct VersionLimit;

/// One to eight clusters, numbered from 0, that share the increment of their failover versions.
/// Each has a name and an initial version of its own, which is below the increment.
#[derive(Debug, Drop)]
pub struct Clusters {
    increment: u64,
    members: Vec<(Name, u64)>,
}

impl Model for Clusters {
    ghost use Rattle.ndc_domain.specs.Clusters.{ClusterList, AreClusters};

    ghost Value = { ClusterList };

    ghost view = { λ clusters.
        record { increment = clusters.increment; members = clusters.members.items } };

    ghost invariant = { λ clusters.
        AreClusters (record { increment = clusters.increment; members = clusters.members.items }) };
}

/// Whether one of the members has this name.
fn has_name(members: &[(Name, u64)], name: &Name) -> bool
    ensures { result ≡ has_name name.now members.now }
{
    members.iter().any(|member| member.0 == *name)
}

/// Whether one of the members has this initial version.
fn has_initial(members: &[(Name, u64)], initial: u64) -> bool
    ensures { result ≡ has_initial initial members.now }
{
    members.iter().any(|member| member.1 == initial)
}

/// What is wrong with the member that comes after those before, if anything.
fn member_fault(
    increment: u64,
    before: &[(Name, u64)],
    member: &(Name, u64),
) -> Option<ClustersError>
    ensures { result ≡ member_fault increment before.now member.now }
{
    let place = before.len();
    if MAX_CLUSTERS <= place {
        Some(ClustersError::TooMany { place })
    } else if has_name(before, &member.0) {
        Some(ClustersError::SameName { place })
    } else if has_initial(before, member.1) {
        Some(ClustersError::SameInitial { place })
    } else if increment <= member.1 {
        Some(ClustersError::NotBelowIncrement { place })
    } else {
        None
    }
}

/// What is wrong with the first of these members that breaks a rule, if one does.
fn members_fault(increment: u64, members: &[(Name, u64)]) -> Option<ClustersError>
    ensures { result ≡ fault_from increment [] members.now }
{
    for (place, member) in members.iter().enumerate() {
        let fault = member_fault(increment, &members[..place], member);
        if fault.is_some() {
            return fault;
        }
    }
    None
}

/// The place of the first member of this name.
fn place_of_name(members: &[(Name, u64)], name: &[u8]) -> Option<usize>
    ensures { result ≡ position (λ member. bytes_eq member.0 name.now) members.now }
{
    members
        .iter()
        .position(|member| member.0.as_bytes() == name)
}

/// The place of the first member of this initial version.
fn place_of_initial(members: &[(Name, u64)], initial: u64) -> Option<usize>
    ensures { result ≡ position (λ member. member.1 == initial) members.now }
{
    members.iter().position(|member| member.1 == initial)
}

/// The least number from `old` on whose rest modulo the increment is this one.
fn next_with_rest(increment: u64, old: u64, rest: u64) -> u64
    requires old { old ≤ 10 ^ 13 }
    requires increment { increment ≤ 10 ^ 12 }
    requires rest { rest < increment }
    ensures { result ≡ next_with_rest increment old rest }
{
    let old_rest = old % increment;
    if old_rest <= rest {
        old + (rest - old_rest)
    } else {
        old + (increment - old_rest) + rest
    }
}

impl Clusters {
    ghost use Rattle.std.specs.Prelude.{◌≡◌, ◌≤◌, ◌<◌, ◌^◌, ℕ, length, IfOk, IfErr, IfSome};
    ghost use Rattle.ndc_domain.specs.Clusters.{AreClusters, clusters_of, count_of, initial_of, name_of, find_of, writer_of};
    ghost use Rattle.ndc_domain.specs.Next.{IsNext, next_of, next_version_of};

    /// The clusters with these names and initial versions, numbered in order. Refused with
    /// [`ClustersError::IncrementLimit`] where the increment is 0 or above 10^12 and with
    /// [`ClustersError::NoClusters`] where there is no member; then, at the first member that
    /// breaks a rule, with [`ClustersError::TooMany`] where it is the ninth,
    /// [`ClustersError::SameName`] and [`ClustersError::SameInitial`] where an earlier one has its
    /// name or its initial version, and [`ClustersError::NotBelowIncrement`] where its initial
    /// version is not below the increment. Takes no memory, so [`ClustersError::Memory`] does not
    /// come.
    pub fn build(increment: u64, members: Vec<(Name, u64)>) -> Result<Clusters, ClustersError>
        ensures answer { result ≡ clusters_of increment members.items }
        ensures sound { IfOk result AreClusters }
    {
        if increment == 0 || MAX_INCREMENT < increment {
            return Err(ClustersError::IncrementLimit);
        }
        if members.is_empty() {
            return Err(ClustersError::NoClusters);
        }
        match members_fault(increment, members.as_slice()) {
            Some(fault) => Err(fault),
            None => Ok(Clusters { increment, members }),
        }
    }

    /// How many clusters there are.
    pub fn count(&self) -> u32
        ensures count { result ≡ count_of self.now }
        ensures sound { AreClusters self.now }
    {
        self.members.len() as u32
    }

    /// The increment that the clusters share.
    pub fn increment(&self) -> u64
        ensures increment { result ≡ self.now.increment }
        ensures sound { AreClusters self.now }
    {
        self.increment
    }

    /// The initial version of a cluster, whose number is below the count.
    pub fn initial(&self, cluster: ClusterNo) -> u64
        requires { cluster.number < count_of self.now }
        ensures { result ≡ initial_of self.now cluster }
    {
        self.members[cluster.number as usize].1
    }

    /// The name of a cluster, whose number is below the count.
    pub fn name(&self, cluster: ClusterNo) -> &Name
        requires { cluster.number < count_of self.now }
        ensures { result.now ≡ name_of self.now cluster }
    {
        &self.members[cluster.number as usize].0
    }

    /// The cluster of this name; none exactly where no cluster has it.
    pub fn find(&self, name: &[u8]) -> Option<ClusterNo>
        ensures found { result ≡ find_of self.now name.now }
        ensures within { IfSome result (λ cluster. cluster.number < count_of self.now) }
    {
        match place_of_name(self.members.as_slice(), name) {
            Some(place) => Some(ClusterNo {
                number: place as u32,
            }),
            None => None,
        }
    }

    /// The cluster whose initial version is this version modulo the increment: the one that writes
    /// with it. None exactly where no cluster has that initial version.
    pub fn writer_of(&self, version: u64) -> Option<ClusterNo>
        ensures writer { result ≡ writer_of self.now version }
        ensures within { IfSome result (λ cluster. cluster.number < count_of self.now) }
    {
        match place_of_initial(self.members.as_slice(), version % self.increment) {
            Some(place) => Some(ClusterNo {
                number: place as u32,
            }),
            None => None,
        }
    }

    /// The next version of a cluster, however great.
    fn next_of(&self, old: u64, to: ClusterNo) -> u64
        requires old { old ≤ 10 ^ 13 }
        requires to { to.number < count_of self.now }
        ensures next { result ≡ next_of self.now old to }
        ensures sound { AreClusters self.now }
    {
        next_with_rest(self.increment, old, self.members[to.number as usize].1)
    }

    /// The least version of a cluster: its initial version.
    pub(crate) fn first_version(&self, to: ClusterNo) -> u64
        requires { to.number < count_of self.now }
        ensures next { result ≡ next_of self.now 0 to }
        ensures most { result ≤ 10 ^ 13 }
    {
        self.next_of(0, to)
    }

    /// The least version from `old` on that the cluster `to` writes with. Refused with
    /// [`VersionLimit`] exactly where it is above 10^13. The old version is at most 10^13 and the
    /// cluster's number below the count.
    pub fn next_version(&self, old: u64, to: ClusterNo) -> Result<u64, VersionLimit>
        requires old { old ≤ 10 ^ 13 }
        requires to { to.number < count_of self.now }
        ensures answer { result ≡ next_version_of self.now old to }
        ensures least { IfOk result (λ next. IsNext self.now old to next) }
        ensures limit { IfErr result (λ _.
            (next : ℕ) → IsNext self.now old to next → 10 ^ 13 < next) }
    {
        let next = self.next_of(old, to);
        if next <= MAX_VERSION {
            Ok(next)
        } else {
            Err(VersionLimit)
        }
    }

    /// The same clusters.
    pub fn try_copy(&self) -> Result<Clusters, OutOfMemory>
        ensures { IfOk result (λ copy. copy ≡ self.now) }
    {
        let mut members = Vec::with_capacity(*self.members.allocator(), self.members.len())?;
        for member in self.members.as_slice() {
            let name = member.0.try_copy()?;
            members.push((name, member.1))?;
        }
        Ok(Clusters {
            increment: self.increment,
            members,
        })
    }
}
