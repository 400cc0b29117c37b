ghost use Rattle.std.specs.Prelude.{◌≡◌, ◌<◌, ◌≤◌, ◌++◌, [], ◌∷◌, false, drop, length, map, take, IfOk, OnOk};
ghost use Rattle.std.specs.List.{AllByRecursion, range_with_len};
ghost use Rattle.ndc_model.specs.Moves.{all_arrive, arrives, by_link, in_flight};
ghost use Rattle.ndc_world_replication.specs.Flights.{emptied, emptied_at};

use ndc_cluster_links::Link;
use ndc_domain::ClusterNo;
use ndc_event::OutOfMemory;
use ndc_model_cells::{Job, ShardJob};
use ndc_queue::Message;
use std::alloc::Global;

/// A job for each of these messages to arrive, in order. Where there is none, this is one comparison.
pub(crate) fn add_jobs(
    jobs: &mut Vec<ShardJob>,
    shard: u32,
    messages: Vec<Message>,
) -> Result<(), OutOfMemory>
    ensures { OnOk result (jobs.new.items ≡ jobs.old.items ++ map (arrives shard) messages.items) }
{
    if messages.is_empty() {
        return Ok(());
    }
    push_jobs(jobs, shard, messages)
}

/// The same, of any messages.
fn push_jobs(
    jobs: &mut Vec<ShardJob>,
    shard: u32,
    messages: Vec<Message>,
) -> Result<(), OutOfMemory>
    ensures { OnOk result (jobs.new.items ≡ jobs.old.items ++ map (arrives shard) messages.items) }
{
    for message in messages {
        jobs.push(ShardJob {
            shard,
            job: Job::Arrive { message },
        })?;
    }
    Ok(())
}

/// Takes what is in flight over a link for a shard as jobs, where it is the reader's. A link that is known to be quiet is
/// passed by, and so is a shard for which nothing is in flight.
fn take_from(
    jobs: &mut Vec<ShardJob>,
    link: &mut Link,
    reader: ClusterNo,
    shard: u32,
) -> Result<(), OutOfMemory>
    requires { shard < length link.old.lanes }
    ensures link { OnOk result (link.new ≡ emptied_at reader shard link.old) }
    ensures jobs { OnOk result (jobs.new.items ≡ jobs.old.items ++ map (arrives shard) (by_link reader in_flight (link.old ∷ []) shard)) }
{
    if link.reader().number != reader.number {
        return Ok(());
    }
    if link.is_quiet() {
        return Ok(());
    }
    if link.is_quiet_for(shard as usize) {
        return Ok(());
    }
    let messages = link.take_flight(shard as usize);
    add_jobs(jobs, shard, messages)?;
    Ok(())
}

/// Takes what is in flight to a reader for a shard, link by link, as jobs.
fn take_shard(
    jobs: &mut Vec<ShardJob>,
    links: &mut [Link],
    reader: ClusterNo,
    shard: u32,
) -> Result<(), OutOfMemory>
    requires { AllByRecursion (λ link. shard < length link.lanes) links.old }
    ensures links { OnOk result (links.new ≡ map (emptied_at reader shard) links.old) }
    ensures jobs { OnOk result (jobs.new.items ≡ jobs.old.items ++ map (arrives shard) (by_link reader in_flight links.old shard)) }
{
    for place in 0..links.len() {
        let link = &mut links[place];
        take_from(jobs, link, reader, shard)?;
    }
    Ok(())
}

/// Takes what is in flight to a reader for each shard, link by link, as jobs.
fn take_shards(
    alloc: Global,
    links: &mut [Link],
    reader: ClusterNo,
    shards: u32,
) -> Result<Vec<ShardJob>, OutOfMemory>
    requires { AllByRecursion (λ link. length link.lanes ≡ shards) links.old }
    ensures links { OnOk result (links.new ≡ map (emptied reader) links.old) }
    ensures jobs { IfOk result (λ jobs. jobs.items ≡ all_arrive (by_link reader in_flight links.old) (range_with_len 0 shards)) }
{
    let mut jobs = Vec::new(alloc);
    for shard in 0..shards {
        take_shard(&mut jobs, links, reader, shard)?;
    }
    Ok(jobs)
}

/// Whether it is not known that nothing is in flight over a link to a reader.
fn may_bring(link: &Link, reader: ClusterNo) -> bool
    ensures { result ≡ false → emptied reader link.now ≡ link.now }
{
    link.reader().number == reader.number && !link.is_quiet()
}

/// How many links stand before the first one over which something may be in flight to a reader.
fn quiet_front(links: &[Link], reader: ClusterNo) -> usize
    ensures within { result ≤ length links.now }
    ensures quiet { map (emptied reader) (take result links.now) ≡ take result links.now }
{
    for place in 0..links.len() {
        if may_bring(&links[place], reader) {
            return place;
        }
    }
    links.len()
}

/// How many links there are up to the last one over which something may be in flight to a reader.
fn busy_front(links: &[Link], reader: ClusterNo) -> usize
    ensures within { result ≤ length links.now }
    ensures quiet { map (emptied reader) (drop result links.now) ≡ drop result links.now }
{
    let mut count = links.len();
    while 0 < count {
        if may_bring(&links[count - 1], reader) {
            return count;
        }
        count -= 1;
    }
    0
}

/// Looks over which links of a reader nothing is in flight.
fn look_all(links: &mut [Link], reader: ClusterNo)
    ensures { links.new ≡ links.old }
{
    for link in links.iter_mut() {
        if link.reader().number == reader.number {
            link.look();
        }
    }
}

/// Takes all that is in flight to a reader, by shard and then link by link, as jobs, and looks over which links nothing is
/// then. The links at the end that bring nothing are passed by.
fn take_busy(
    alloc: Global,
    links: &mut [Link],
    reader: ClusterNo,
    shards: u32,
) -> Result<Vec<ShardJob>, OutOfMemory>
    requires { AllByRecursion (λ link. length link.lanes ≡ shards) links.old }
    ensures links { OnOk result (links.new ≡ map (emptied reader) links.old) }
    ensures jobs { IfOk result (λ jobs. jobs.items ≡ all_arrive (by_link reader in_flight links.old) (range_with_len 0 shards)) }
{
    let count = busy_front(links, reader);
    let (busy, _quiet) = links.split_at_mut(count);
    let jobs = take_shards(alloc, busy, reader, shards)?;
    look_all(busy, reader);
    Ok(jobs)
}

/// Takes all that is in flight to a reader, by shard and then link by link, as jobs. Only the links from the first to the
/// last one over which something may be in flight to it are looked at for each shard.
pub(crate) fn take_all(
    alloc: Global,
    links: &mut [Link],
    reader: ClusterNo,
    shards: u32,
) -> Result<Vec<ShardJob>, OutOfMemory>
    requires { AllByRecursion (λ link. length link.lanes ≡ shards) links.old }
    ensures links { OnOk result (links.new ≡ map (emptied reader) links.old) }
    ensures jobs { IfOk result (λ jobs. jobs.items ≡ all_arrive (by_link reader in_flight links.old) (range_with_len 0 shards)) }
{
    let front = quiet_front(links, reader);
    if front == links.len() {
        return Ok(Vec::new(alloc));
    }
    let (_quiet, rest) = links.split_at_mut(front);
    take_busy(alloc, rest, reader, shards)
}
