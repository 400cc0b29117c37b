ghost use Rattle.std.specs.Prelude.{◌≡◌, ◌<◌, ◌++◌, [], ◌∷◌, Some, length, option_map, option_to_list, slice_get, IfOk, OnOk};
ghost use Rattle.std.specs.List.{AllByRecursion, filter_map};
ghost use Rattle.ndc_script_types.specs.WellFormed.{IsCluster};
ghost use Rattle.ndc_model_cells.specs.Shards.{shard_of};
ghost use Rattle.ndc_domain.specs.Clusters.{count_of};
ghost use Rattle.ndc_model.specs.Allowed.{letter_jobs};
ghost use Rattle.ndc_letters.specs.Letters.{is_whole, letter_of, with_letter};
ghost use Rattle.ndc_model.specs.Fair.{IsShaped};
ghost use Rattle.ndc_model.specs.Letters.{damage_step, damaged, letter_job, letters_answer, mergeletters_step, purge_step, with_letters};
ghost use Rattle.ndc_model.specs.Moves.{from_world, jobs_done, renewed};
ghost use Rattle.ndc_model.specs.World.{cluster_at, flight_at, with_flight};
ghost use Rattle.ndc_model.specs.Conditions.{MayDoAll};
ghost use Rattle.ndc_world_replication.specs.Dones.{notes_in};
ghost use Rattle.ndc_world_replication.specs.Orderly.{IsOrderly};
ghost use Rattle.ndc_world_steps.specs.Told.{leaving};

use crate::moving::{Telling, tell_all};
use crate::told::{Told, answered};
use ndc_cluster::Cell;
use ndc_cluster_reads::Reads;
use ndc_domain::ClusterNo;
use ndc_event::{Batch, OutOfMemory};
use ndc_letters::{Bytes, Letter, Letters, Taken};
use ndc_model_cells::{Job, ShardJob, shard_of};
use ndc_port::Gate;
use ndc_script_types::Header;
use ndc_text::print_batch;
use ndc_world_answers::AnswerText;
use ndc_world_replication::publishers::{cell_of, flight_of, publisher_of};
use ndc_world_replication::{Done, Replication};
use std::alloc::Global;
use std::thread::Threads;

/// `letters`.
pub fn letters<C: Cell + Drop>(
    replication: &Replication<C>,
    alloc: Global,
    header: &Header,
    reader: ClusterNo,
) -> Result<AnswerText, OutOfMemory>
    requires reader { reader.number < length replication.now.clusters }
    requires sources { AllByRecursion (λ letter. letter.source.number < count_of header.now.clusters) (cluster_at reader replication.now).letters }
    ensures { IfOk result (λ text. text ≡ letters_answer header.now (cluster_at reader replication.now).letters) }
{
    let letters = publisher_of(replication, reader).letters();
    ndc_world_answers::letters(alloc, header, letters.list())
}

/// `purge`.
pub fn purge<C: Cell + Drop>(
    replication: &mut Replication<C>,
    alloc: Global,
    reader: ClusterNo,
) -> Result<Told, OutOfMemory>
    requires reader { reader.number < length replication.old.clusters }
    ensures { IfOk result (λ answer. leaving replication.new answer ≡ purge_step reader replication.old) }
{
    let mut letters = replication.replace_letters(reader, Letters::new(alloc));
    let count = letters.purge();
    Ok(answered(alloc, ndc_world_answers::counted(alloc, count)?))
}

/// What comes of a batch that a source sends, where so many bytes of its text arrive.
fn letter_of(
    alloc: Global,
    source: ClusterNo,
    cut: usize,
    batch: &Batch,
) -> Result<Letter, OutOfMemory>
    ensures { IfOk result (λ letter. letter ≡ letter_of source cut batch.now) }
{
    let mut bytes = print_batch(alloc, batch)?;
    bytes.truncate(cut);
    Ok(Letter {
        source,
        domain: batch.domain.try_copy()?,
        workflow: batch.workflow.try_copy()?,
        key: batch.key,
        bytes: Bytes::new(bytes),
    })
}

/// What comes of the message at a place in flight, where there is one and so many bytes of it arrive.
fn letter_at<C: Cell + Drop>(
    replication: &Replication<C>,
    alloc: Global,
    reader: ClusterNo,
    source: ClusterNo,
    shard: u32,
    place: usize,
    cut: usize,
) -> Result<Option<Letter>, OutOfMemory>
    ensures { IfOk result (λ letter. letter ≡ option_map (λ sent. letter_of source cut sent.batch) (slice_get (flight_at reader source shard replication.now) place)) }
{
    let flight = flight_of(replication, reader, source, shard);
    if flight.len() <= place {
        return Ok(None);
    }
    Ok(Some(letter_of(alloc, source, cut, &flight[place].batch)?))
}

/// A letter is taken by a reader, and it is told whether it is whole; else it goes last among those that are set aside.
fn take<C: Cell + Drop>(
    replication: &mut Replication<C>,
    alloc: Global,
    reader: ClusterNo,
    letter: Letter,
) -> Result<bool, OutOfMemory>
    requires { reader.number < length replication.old.clusters }
    ensures whole { IfOk result (λ whole. whole ≡ is_whole letter) }
    ensures letters { OnOk result (replication.new ≡ with_letters reader (with_letter letter (cluster_at reader replication.old).letters) replication.old) }
{
    let mut letters = replication.replace_letters(reader, Letters::new(alloc));
    let taken = letters.take(letter)?;
    replication.replace_letters(reader, letters);
    Ok(matches!(taken, Taken::Whole { .. }))
}

/// A message that comes damaged leaves the flight and is set aside, where its bytes are not read as the batch that it was.
fn set_aside<C: Cell + Drop>(
    replication: &mut Replication<C>,
    alloc: Global,
    reader: ClusterNo,
    source: ClusterNo,
    shard: u32,
    place: usize,
    letter: Letter,
) -> Result<Told, OutOfMemory>
    requires reader { reader.number < length replication.old.clusters }
    requires place { place < length (flight_at reader source shard replication.old) }
    ensures { IfOk result (λ answer. leaving replication.new answer ≡ damaged reader source shard place replication.old letter) }
{
    if take(replication, alloc, reader, letter)? {
        return Ok(answered(alloc, ndc_world_answers::whole(alloc)?));
    }
    match replication.lose(reader, source, shard as usize, place) {
        Ok(()) => Ok(answered(alloc, ndc_world_answers::set_aside(alloc)?)),
        Err(_) => unreachable!(),
    }
}

/// `damage`.
pub fn damage<C: Cell + Drop>(
    replication: &mut Replication<C>,
    alloc: Global,
    reader: ClusterNo,
    source: ClusterNo,
    shard: u32,
    place: usize,
    cut: usize,
) -> Result<Told, OutOfMemory>
    requires { reader.number < length replication.old.clusters }
    ensures { IfOk result (λ answer. leaving replication.new answer ≡ damage_step reader source shard place cut replication.old) }
{
    let Some(letter) = letter_at(replication, alloc, reader, source, shard, place, cut)? else {
        return Ok(answered(alloc, ndc_world_answers::no_place(alloc)?));
    };
    set_aside(replication, alloc, reader, source, shard, place, letter)
}

/// The job in which the message of a letter arrives, where its source has it.
fn letter_job<C: Reads + Drop>(
    replication: &Replication<C>,
    alloc: Global,
    header: &Header,
    letter: &Letter,
) -> Result<Option<ShardJob>, OutOfMemory>
    requires shards { 0 < header.now.shards }
    requires shaped { IsShaped header.now replication.now }
    requires source { IsCluster header.now letter.now.source }
    ensures { IfOk result (λ asked. asked ≡ letter_job header.now replication.now letter.now) }
{
    let shard = shard_of(&letter.domain, &letter.workflow, header.shards);
    let cell = cell_of(replication, letter.source, shard);
    let found = cell.message_at(alloc, &letter.domain, &letter.workflow, letter.key)?;
    Ok(found.map(|message| ShardJob {
        shard,
        job: Job::Arrive { message },
    }))
}

/// A job goes last, where there is one.
fn add_job(jobs: &mut Vec<ShardJob>, asked: Option<ShardJob>) -> Result<(), OutOfMemory>
    ensures { OnOk result (jobs.new.items ≡ jobs.old.items ++ option_to_list asked) }
{
    if let Some(asked) = asked {
        jobs.push(asked)?;
    }
    Ok(())
}

/// The jobs in which the messages of letters arrive, in order.
fn letter_jobs<C: Reads + Drop>(
    replication: &Replication<C>,
    alloc: Global,
    header: &Header,
    letters: &[Letter],
) -> Result<Vec<ShardJob>, OutOfMemory>
    requires shards { 0 < header.now.shards }
    requires shaped { IsShaped header.now replication.now }
    requires sources { AllByRecursion (λ letter. IsCluster header.now letter.source) letters.now }
    ensures { IfOk result (λ jobs. jobs.items ≡ filter_map (letter_job header.now replication.now) letters.now) }
{
    let mut jobs = Vec::new(alloc);
    for place in 0..letters.len() {
        let asked = letter_job(replication, alloc, header, &letters[place])?;
        add_job(&mut jobs, asked)?;
    }
    Ok(jobs)
}

/// The jobs in which the messages of the letters of a cluster arrive, in order.
fn jobs_of<C: Reads + Drop>(
    replication: &Replication<C>,
    alloc: Global,
    header: &Header,
    reader: ClusterNo,
) -> Result<Vec<ShardJob>, OutOfMemory>
    requires reader { IsCluster header.now reader }
    requires shards { 0 < header.now.shards }
    requires shaped { IsShaped header.now replication.now }
    requires sources { AllByRecursion (λ letter. IsCluster header.now letter.source) (cluster_at reader replication.now).letters }
    ensures { IfOk result (λ jobs. jobs.items ≡ letter_jobs header.now reader replication.now) }
{
    let letters = publisher_of(replication, reader).letters();
    let jobs = letter_jobs(replication, alloc, header, letters.list())?;
    Ok(jobs)
}

/// The messages of all letters arrive in order, and the list is emptied.
fn serve<R: Threads + Sync, G: Gate, C: Reads + Drop + Send>(
    replication: &mut Replication<C>,
    rt: &R,
    alloc: Global,
    gate: &G,
    workers: u32,
    header: &Header,
    reader: ClusterNo,
) -> Result<Done, OutOfMemory>
    requires workers { 0 < workers }
    requires reader { IsCluster header.now reader }
    requires shards { 0 < header.now.shards }
    requires shaped { IsShaped header.now replication.old }
    requires sources { AllByRecursion (λ letter. IsCluster header.now letter.source) (cluster_at reader replication.old).letters }
    requires allowed { MayDoAll C.allows header.now reader (letter_jobs header.now reader replication.old) replication.old }
    ensures world { OnOk result (replication.new ≡ with_letters reader [] (jobs_done header.now reader (letter_jobs header.now reader replication.old) (from_world replication.old)).world) }
    ensures notes { IfOk result (λ done. notes_in done ≡ (jobs_done header.now reader (letter_jobs header.now reader replication.old) (from_world replication.old)).notes) }
{
    let jobs = jobs_of(replication, alloc, header, reader)?;
    let asked = jobs.as_slice();
    let replies = replication.do_jobs(rt, alloc, gate, workers, header, reader, asked)?;
    replication.replace_letters(reader, Letters::new(alloc));
    Ok(Done {
        cluster: reader,
        jobs,
        replies,
        reapplied: 0,
    })
}

/// `mergeletters`.
pub fn merge<R: Threads + Sync, G: Gate, C: Reads + Drop + Send>(
    replication: &mut Replication<C>,
    rt: &R,
    alloc: Global,
    gate: &G,
    workers: u32,
    header: &Header,
    reader: ClusterNo,
) -> Result<Told, OutOfMemory>
    requires workers { 0 < workers }
    requires reader { IsCluster header.now reader }
    requires shards { 0 < header.now.shards }
    requires orderly { IsOrderly header.now replication.old }
    requires sources { AllByRecursion (λ letter. IsCluster header.now letter.source) (cluster_at reader replication.old).letters }
    requires allowed { MayDoAll C.allows header.now reader (letter_jobs header.now reader replication.old) replication.old }
    ensures { IfOk result (λ answer. leaving replication.new answer ≡ mergeletters_step header.now reader replication.old) }
{
    let done = serve(replication, rt, alloc, gate, workers, header, reader)?;
    replication.renew(header, reader);
    let mut dones = Vec::new(alloc);
    dones.push(done)?;
    let Telling { tally, seen } = tell_all(alloc, dones)?;
    let answer = ndc_world_answers::arrived(alloc, tally)?;
    Ok(Told { text: answer, seen })
}
