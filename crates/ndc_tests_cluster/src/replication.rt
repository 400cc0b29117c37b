ghost use Rattle.std.specs.Prelude.{◌≡◌, length, IfOk};
ghost use Rattle.ndc_domain.specs.Clusters.{count_of};
ghost use Rattle.ndc_model.specs.Sometime.{IsReachedSometime};
ghost use Rattle.ndc_model.specs.Facts.{IsReached};
ghost use Rattle.ndc_world_replication.specs.Orderly.{IsOrderly};

use crate::given::ListCell;
use ndc_cluster::{Cell, Home};
use ndc_cluster_reads::Reads;
use ndc_command::Refusal;
use ndc_domain::{ClusterNo, Clusters, DomainTable};
use ndc_event::{BatchKey, Name, OutOfMemory};
use ndc_model_cells::{Message, Place};
use ndc_port::OpenGate;
use ndc_resend::GapOf;
use ndc_script_types::Header;
use ndc_shard_entries::writes_to;
use ndc_shard_runs::Runs;
use ndc_world_replication::Replication;
use std::alloc::Global;
use std::test::Fail;

impl Reads for ListCell {
    fn runs(&self, _domain: &Name, _workflow: &Name) -> Option<&Runs> {
        None
    }

    #[tactic(auto, unfolding(ndc_model_cells::specs::Writing::may_write))]
    fn may_write(
        &self,
        home: &Home,
        table: &DomainTable,
        domain: &Name,
        _workflow: &Name,
    ) -> Result<u64, Refusal> {
        match writes_to(home.clusters, home.me, table.find(domain)) {
            Ok(_) => Err(Refusal::NoWorkflow),
            Err(why) => Err(why),
        }
    }

    fn has_arrived(&self, _domain: &Name, _workflow: &Name, _key: BatchKey) -> bool {
        false
    }

    fn behind(&self, alloc: Global) -> Result<Vec<Place>, OutOfMemory> {
        Ok(Vec::new(alloc))
    }

    fn gaps(&self, alloc: Global) -> Result<Vec<GapOf>, OutOfMemory> {
        Ok(Vec::new(alloc))
    }

    fn gaps_in(
        &self,
        alloc: Global,
        _domain: &Name,
        _workflow: &Name,
    ) -> Result<Vec<GapOf>, OutOfMemory> {
        Ok(Vec::new(alloc))
    }

    fn serve(&self, alloc: Global, _asked: &GapOf) -> Result<Vec<Message>, OutOfMemory> {
        Ok(Vec::new(alloc))
    }

    fn message_at(
        &self,
        _alloc: Global,
        _domain: &Name,
        _workflow: &Name,
        _key: BatchKey,
    ) -> Result<Option<Message>, OutOfMemory> {
        Ok(None)
    }
}

/// Two clusters with one shard, in the beginning.
#[derive(Drop)]
struct Opened {
    header: Header,
    replication: Replication<ListCell>,
}

/// Two clusters with one shard, in the beginning.
fn in_the_beginning(alloc: Global) -> Result<Opened, Fail>
    ensures clusters { IfOk result (λ opened. length opened.replication.clusters ≡ 2) }
    ensures members { IfOk result (λ opened. count_of opened.header.clusters ≡ 2) }
    ensures shards { IfOk result (λ opened. opened.header.shards ≡ 1) }
    ensures reached { IfOk result (λ opened. IsReached opened.header 0 opened.replication) }
    ensures sometime { IfOk result (λ opened. IsReachedSometime opened.header opened.replication) }
    ensures orderly { IfOk result (λ opened. IsOrderly opened.header opened.replication) }
{
    let mut members = Vec::new(alloc);
    members.push((Name::new(alloc, b"A".as_slice())?, 1))?;
    members.push((Name::new(alloc, b"B".as_slice())?, 2))?;
    let header = Header {
        clusters: Clusters::build(10, members)?,
        shards: 1,
        limit: 100,
    };
    let replication = Replication::new(alloc, &header)?;
    Ok(Opened {
        header,
        replication,
    })
}

#[test]
fn a_cluster_without_memory_reapplies_nothing(rt: HostRuntime) -> Result<(), Fail> {
    let alloc = rt.alloc();
    let Opened {
        header,
        mut replication,
    } = in_the_beginning(alloc)?;
    let cluster = ClusterNo { number: 1 };
    assert!(rt;
        replication
            .reapply(&rt, alloc, &OpenGate {}, 2, &header, cluster)
            .is_err()
    );
    Ok(())
}
