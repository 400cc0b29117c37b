use crate::given::two_clusters;
use ndc_cluster::Home;
use ndc_domain::ClusterNo;
use ndc_model_cells::ShardJob;
use ndc_port::OpenGate;
use ndc_shard::ShardCluster;
use std::test::Fail;

const A: ClusterNo = ClusterNo { number: 0 };

#[test]
fn a_round_without_a_job_has_no_reply(rt: HostRuntime) -> Result<(), Fail> {
    let alloc = rt.alloc();
    let clusters = two_clusters(alloc)?;
    let home = Home {
        clusters: &clusters,
        me: A,
        limit: 100,
    };
    let mut cluster = ShardCluster::new(alloc, &home, 1)?;
    let jobs: Vec<ShardJob> = Vec::new(alloc);
    let replies = cluster.round(&rt, alloc, &OpenGate {}, 2, &home, jobs.as_slice())?;
    assert!(rt; replies.is_empty() && cluster.cells().len() == 1);
    Ok(())
}
