ghost use Rattle.std.specs.Prelude.{◌<◌, All};
ghost use Rattle.ndc_domain.specs.Clusters.{count_of};

use crate::given::name;
use ndc_domain::{ClusterNo, Clusters, DomainTable, Members};
use ndc_event::OutOfMemory;
use std::alloc::{AllocError, Global};
use std::test::Fail;

/// The only cluster.
const FIRST: ClusterNo = ClusterNo { number: 0 };

// One cluster of this initial version, with increment 10.
fn clusters(alloc: Global, initial: u64) -> Result<Clusters, OutOfMemory> {
    let mut members = Vec::new(alloc);
    members.push((name(alloc, "A")?, initial))?;
    Clusters::build(10, members).map_err(|_| AllocError)
}

// The first cluster as the only member.
fn alone(clusters: &Clusters) -> Members
    ensures { All (λ member. member < count_of clusters.now) result }
{
    let _least = clusters.count();
    Members::of(&[FIRST])
}

// The names of a table in which these domains were registered, in this order.
fn names_behind(alloc: Global, domains: &[&str]) -> Result<String, OutOfMemory> {
    let clusters = clusters(alloc, 1)?;
    let mut table = DomainTable::new(alloc);
    for domain in domains {
        let domain = name(alloc, domain)?;
        table
            .register(&clusters, FIRST, &domain, FIRST, 7, alone(&clusters))
            .map_err(|_| AllocError)?;
    }
    format!(in alloc; "{:?}", table.names()?)
}

#[test]
fn names_ascend(rt: HostRuntime) -> Result<(), Fail> {
    assert_eq!(rt;
        names_behind(rt.alloc(), &["shop", "bank", "club"])?.as_str(),
        "[bank, club, shop]"
    );
    Ok(())
}

#[test]
fn clusters_are_copied(rt: HostRuntime) -> Result<(), Fail> {
    let clusters = clusters(rt.alloc(), 3)?;
    let copy = clusters.try_copy()?;
    assert_eq!(rt; (copy.count(), copy.increment()), (1, 10));
    assert_eq!(rt; copy.find(b"A"), Some(FIRST));
    assert_eq!(rt; copy.writer_of(23), Some(FIRST));
    assert_eq!(rt; copy.writer_of(21), None);
    Ok(())
}
