ghost use Rattle.std.specs.List.{AllByRecursion};
ghost use Rattle.std.specs.Prelude.{◌≡◌, ◌<◌, ◌≤◌, length, IfOk};

use crate::given::{ListCell, name, two_clusters};
use ndc_cluster::{Cell, Cluster, Home};
use ndc_domain::ClusterNo;
use ndc_event::OutOfMemory;
use ndc_model_cells::{Job, ShardJob};
use ndc_port::{Gate, OpenGate, PairGate};
use std::alloc::Global;
use std::sync::atomic::{AtomicBool, Ordering};
use std::test::Fail;
use std::thread::Threads;

/// A gate that holds worker 1 until worker 0 has entered, for a bounded number of turns.
#[derive(Drop)]
struct LateGate {
    first: AtomicBool,
    met: AtomicBool,
}

impl Gate for LateGate {
    fn enter(&self, worker: u32) -> bool {
        if worker == 0 {
            self.first.store(true, Ordering::SeqCst);
        }
        for _ in 0..200_000_000 {
            if self.first.load(Ordering::SeqCst) {
                if worker == 1 {
                    self.met.store(true, Ordering::SeqCst);
                }
                return true;
            }
        }
        false
    }
}

/// A gate that says that it holds nobody, and yet holds worker 0 until worker 1 has entered.
#[derive(Drop)]
struct FalseGate {
    pair: PairGate,
    first: AtomicBool,
    second: AtomicBool,
}

impl FalseGate {
    /// A gate that nobody has entered.
    fn new() -> FalseGate {
        FalseGate {
            pair: PairGate::new(),
            first: AtomicBool::new(false),
            second: AtomicBool::new(false),
        }
    }

    /// Whether both workers have entered.
    fn both(&self) -> bool {
        self.first.load(Ordering::SeqCst) && self.second.load(Ordering::SeqCst)
    }
}

impl Gate for FalseGate {
    fn enter(&self, worker: u32) -> bool {
        if worker == 0 {
            self.first.store(true, Ordering::SeqCst);
        } else {
            self.second.store(true, Ordering::SeqCst);
        }
        self.pair.enter(worker)
    }

    fn is_open(&self) -> bool {
        true
    }
}

/// So many jobs for each of two shards.
fn jobs_for_two(alloc: Global, count: u32) -> Result<Vec<ShardJob>, OutOfMemory>
    requires { count ≤ 1000 }
    ensures { IfOk result (λ jobs. AllByRecursion (λ asked. asked.shard < 2) jobs.items) }
{
    let mut jobs = Vec::new(alloc);
    for place in 0..2 * count {
        jobs.push(ShardJob {
            shard: place % 2,
            job: Job::Reapply,
        })?;
    }
    Ok(jobs)
}

/// How many cells and replies a round leaves in which two workers, who enter this gate, do so many jobs for each of two
/// shards.
fn rounded<R: Threads + Sync, G: Gate>(
    rt: &R,
    alloc: Global,
    gate: &G,
    count: u32,
) -> Result<(usize, usize), Fail>
    requires { count ≤ 1000 }
{
    let clusters = two_clusters(alloc)?;
    let home = Home {
        clusters: &clusters,
        me: ClusterNo { number: 0 },
        limit: 100,
    };
    let mut cluster = Cluster::<ListCell>::new(alloc, &home, 2)?;
    let jobs = jobs_for_two(alloc, count)?;
    let replies = cluster.round(rt, alloc, gate, 2, &home, jobs.as_slice())?;
    Ok((cluster.cells().len(), replies.len()))
}

#[test]
fn workers_enter_side_by_side_where_their_jobs_pay(rt: HostRuntime) -> Result<(), Fail> {
    let many = FalseGate::new();
    assert_eq!(rt; rounded(&rt, rt.alloc(), &many, 64)?, (2, 128));
    assert!(rt; many.both() && many.pair.met());
    let few = FalseGate::new();
    assert_eq!(rt; rounded(&rt, rt.alloc(), &few, 1)?, (2, 2));
    assert!(rt; few.both() && !few.pair.met());
    Ok(())
}

#[test]
fn both_workers_enter_at_once(rt: HostRuntime) -> Result<(), Fail> {
    let pair = PairGate::new();
    assert_eq!(rt; rounded(&rt, rt.alloc(), &pair, 3)?, (2, 6));
    let late = LateGate {
        first: AtomicBool::new(false),
        met: AtomicBool::new(false),
    };
    assert_eq!(rt; rounded(&rt, rt.alloc(), &late, 3)?, (2, 6));
    assert!(rt; pair.met() && late.met.load(Ordering::SeqCst));
    Ok(())
}

#[test]
fn the_first_worker_waits_for_the_second(rt: HostRuntime) -> Result<(), Fail> {
    let alone = PairGate::new();
    assert!(rt; !alone.enter(0) && !alone.met());
    assert!(rt; alone.enter(1) && alone.enter(0) && !alone.met());
    let pair = PairGate::new();
    assert!(rt; pair.enter(2) && pair.enter(1) && !pair.met());
    assert!(rt; pair.enter(0) && pair.met());
    Ok(())
}

#[test]
fn after_want_of_memory_there_are_no_cells(rt: HostRuntime) -> Result<(), Fail> {
    let alloc = rt.alloc();
    let clusters = two_clusters(alloc)?;
    let home = Home {
        clusters: &clusters,
        me: ClusterNo { number: 0 },
        limit: 100,
    };
    let mut cluster = Cluster::<ListCell>::new(alloc, &home, 2)?;
    let mut jobs = Vec::new(alloc);
    jobs.push(ShardJob {
        shard: 1,
        job: Job::Reset {
            domain: name(alloc, "alpha")?,
            workflow: name(alloc, "w1")?,
            event: 1,
        },
    })?;
    let replies = cluster.round(&rt, alloc, &OpenGate {}, 2, &home, jobs.as_slice());
    assert!(rt; replies.is_err() && cluster.cells().is_empty());
    Ok(())
}
