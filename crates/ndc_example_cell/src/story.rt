//! What two cells are made to do.
ghost use Rattle.std.specs.Prelude.{◌≤◌, IfOk};
ghost use Rattle.ndc_domain.specs.Clusters.{count_of};

use crate::error::StoryError;
use crate::pair::{A, B, Pair};
use crate::telling::{tell_alike, tell_arrived, tell_count, tell_may, tell_written};
use ndc_command::{Actions, Command};
use ndc_domain::{Clusters, DomainTable, Members};
use ndc_event::{BatchKey, Name};
use std::alloc::Global;

/// What a cell is asked. It is let go in one place.
struct Asked {
    command: Command,
}

impl Drop for Asked {
    fn drop(self) {
        let Asked { command: _command } = self;
    }
}

/// What the cells are asked, and by which records of the domain they write: those of both at first, and those that B has
/// after its failover.
struct Scene {
    start: Asked,
    signal: Asked,
    decide: Asked,
    respond: Asked,
    records: DomainTable,
    moved: DomainTable,
}

impl Drop for Scene {
    fn drop(self) {
        let Scene {
            start: _start,
            signal: _signal,
            decide: _decide,
            respond: _respond,
            records: _records,
            moved: _moved,
        } = self;
    }
}

/// The clusters, A and B.
fn clusters(alloc: Global) -> Result<Clusters, StoryError>
    ensures { IfOk result (λ clusters. 2 ≤ count_of clusters) }
{
    let mut members = Vec::new(alloc);
    members.push((Name::new(alloc, b"A")?, 1))?;
    members.push((Name::new(alloc, b"B")?, 2))?;
    let clusters = Clusters::build(10, members)?;
    if clusters.count() < 2 {
        return Err(StoryError::Clusters);
    }
    Ok(clusters)
}

/// Records of a domain that A writes to and both are members of.
fn records(alloc: Global, clusters: &Clusters, domain: &Name) -> Result<DomainTable, StoryError>
    requires { 2 ≤ count_of clusters.now }
{
    let mut table = DomainTable::new(alloc);
    let members = Members::of(&[A, B]);
    table.register(clusters, A, domain, A, 7, members)?;
    Ok(table)
}

/// The records as B has them, where the domain fails over to it.
fn moved(
    clusters: &Clusters,
    domain: &Name,
    records: &DomainTable,
) -> Result<DomainTable, StoryError> {
    let mut table = records.try_copy()?;
    table.failover(clusters, domain, B)?;
    Ok(table)
}

/// A start, a signal, a decision that is started and then completed, and the records.
fn scene_of(alloc: Global, clusters: &Clusters, domain: &Name) -> Result<Scene, StoryError>
    requires { 2 ≤ count_of clusters.now }
{
    let records = records(alloc, clusters, domain)?;
    let moved = moved(clusters, domain, &records)?;
    let workflow_type = Name::new(alloc, b"order")?;
    let name = Name::new(alloc, b"paid")?;
    let input = Name::new(alloc, b"now")?;
    Ok(Scene {
        start: Asked {
            command: Command::Start { workflow_type },
        },
        signal: Asked {
            command: Command::Signal { name, input },
        },
        decide: Asked {
            command: Command::Decide,
        },
        respond: Asked {
            command: Command::Respond {
                actions: Actions::new(Vec::new(alloc)),
            },
        },
        records,
        moved,
    })
}

/// The cell in hand is asked to write, and what comes of it is told.
fn write(
    pair: &mut Pair,
    who: &[u8],
    table: &DomainTable,
    asked: &Asked,
    text: &mut Vec<u8>,
) -> Result<(), StoryError> {
    let written = pair.write(table, &asked.command)?;
    tell_written(text, who, &written)?;
    Ok(())
}

/// The cell in hand tells the other one the batch that was written with a version and task.
fn tell(
    pair: &mut Pair,
    whom: &[u8],
    version: u64,
    task: u64,
    text: &mut Vec<u8>,
) -> Result<(), StoryError> {
    let arrived = pair.tell(BatchKey { version, task })?;
    tell_arrived(text, whom, &arrived)?;
    Ok(())
}

/// Tells whether both cells show the same.
fn compare(alloc: Global, pair: &Pair, text: &mut Vec<u8>) -> Result<(), StoryError> {
    let alike = pair.shows_as(alloc, pair.theirs())?;
    tell_alike(text, alike)?;
    Ok(())
}

/// A starts the workflow and takes a signal; the signal comes to B before the start, which is lost, and B is served.
fn lose_and_serve(
    alloc: Global,
    pair: &mut Pair,
    scene: &Scene,
    text: &mut Vec<u8>,
) -> Result<(), StoryError> {
    write(pair, b"A", &scene.records, &scene.start, text)?;
    write(pair, b"A", &scene.records, &scene.signal, text)?;
    tell(pair, b"B", 1, 2, text)?;
    let gaps = pair.repair()?;
    tell_count(text, b"gaps for which B is served: ", gaps)?;
    compare(alloc, pair, text)
}

/// B takes a signal, which is refused, and takes it again with records that make it the writer; A takes one too, by its
/// older records, and each tells the other what it wrote. B is in hand at the end.
fn fail_over(
    alloc: Global,
    pair: &mut Pair,
    scene: &Scene,
    text: &mut Vec<u8>,
) -> Result<(), StoryError> {
    pair.turn();
    write(pair, b"B", &scene.records, &scene.signal, text)?;
    tell_may(text, b"B", pair.may_write(&scene.moved))?;
    write(pair, b"B", &scene.moved, &scene.signal, text)?;
    pair.turn();
    write(pair, b"A", &scene.records, &scene.signal, text)?;
    tell(pair, b"B", 1, 3, text)?;
    pair.turn();
    tell(pair, b"A", 2, 3, text)?;
    compare(alloc, pair, text)
}

/// A's cell is made anew from what B has learned, and B applies again the signal of the branch that lost.
fn make_anew(
    alloc: Global,
    pair: &mut Pair,
    scene: &Scene,
    text: &mut Vec<u8>,
) -> Result<(), StoryError> {
    let copy = pair.remake(alloc)?;
    text.extend_from_slice(b"A is made anew\n")?;
    tell_count(
        text,
        b"workflows that it has learned: ",
        copy.workflows()?.len(),
    )?;
    let alike = pair.shows_as(alloc, &copy)?;
    tell_alike(text, alike)?;
    let count = pair.reapply(&scene.moved)?;
    tell_count(text, b"batches that B applies again: ", count)?;
    Ok(())
}

/// A starts another workflow and makes a decision, and a reset goes on from before that decision in a new run.
fn go_back(
    alloc: Global,
    clusters: &Clusters,
    domain: &Name,
    scene: &Scene,
    text: &mut Vec<u8>,
) -> Result<(), StoryError> {
    let workflow = Name::new(alloc, b"w2")?;
    let mut pair = Pair::new(alloc, clusters, domain, &workflow)?;
    write(&mut pair, b"A", &scene.records, &scene.start, text)?;
    write(&mut pair, b"A", &scene.records, &scene.decide, text)?;
    write(&mut pair, b"A", &scene.records, &scene.respond, text)?;
    let written = pair.reset(&scene.records, 4)?;
    tell_written(text, b"A goes back and", &written)?;
    Ok(())
}

/// Lets all of it happen between two new cells, and tells of it.
fn play_scene(
    alloc: Global,
    clusters: &Clusters,
    domain: &Name,
    scene: &Scene,
    text: &mut Vec<u8>,
) -> Result<(), StoryError> {
    let workflow = Name::new(alloc, b"w1")?;
    let mut pair = Pair::new(alloc, clusters, domain, &workflow)?;
    lose_and_serve(alloc, &mut pair, scene, text)?;
    fail_over(alloc, &mut pair, scene, text)?;
    make_anew(alloc, &mut pair, scene, text)?;
    go_back(alloc, clusters, domain, scene, text)
}

/// Makes the clusters and the records, lets all of it happen, and gives the lines that tell of it.
pub(crate) fn play(alloc: Global) -> Result<Vec<u8>, StoryError> {
    let clusters = clusters(alloc)?;
    let domain = Name::new(alloc, b"alpha")?;
    let scene = scene_of(alloc, &clusters, &domain)?;
    let mut text = Vec::new(alloc);
    play_scene(alloc, &clusters, &domain, &scene, &mut text)?;
    Ok(text)
}
