//! The answers to questions.
ghost use Rattle.std.specs.Prelude.{◌≡◌, ◌<◌, ◌++◌, drop, false, map, IfOk, OnOk, Some};
ghost use Rattle.ndc_domain.specs.Clusters.{count_of, name_of};
ghost use Rattle.ndc_model.specs.Texts.{spaced};
ghost use Rattle.ndc_model_cells.specs.Cells.{is_message_learned};
ghost use Rattle.ndc_model.specs.Queues.{needs_nothing};
ghost use Rattle.ndc_model.specs.World.{link_at, queue_at, trimmed_at};
ghost use Rattle.ndc_probe.specs.Answers.{answer_to, joined, told_of};
ghost use Rattle.ndc_probe.specs.Holding.{held_text, holds_text, reason_of};
ghost use Rattle.ndc_probe.specs.Late.{late_text};
ghost use Rattle.ndc_probe.specs.Sent.{queue_text};
ghost use Rattle.ndc_probe_questions.specs.Questions.{IsLane, IsQuestion};
ghost use Rattle.ndc_script_types.specs.WellFormed.{IsCluster, IsWellFormedHeader};

use crate::holding::{has_letter, is_in_flight, lacked_by, push_done, push_reason, reason_behind};
use crate::late::push_late;
use crate::reason::Reason;
use crate::sent::{push_entry, push_flight, push_queue};
use crate::unasked::push_unasked;
use crate::workflows::{push_all_workflows, push_differs, push_dumps, push_forks};
use ndc_cluster::Cell;
use ndc_cluster_links::is_addressed;
use ndc_domain::{ClusterNo, DomainTable};
use ndc_event::OutOfMemory;
use ndc_model_cells::Message;
use ndc_probe_questions::{KeptLine, LaneAt, Question, question_of};
use ndc_script_types::{Header, ScriptError};
use ndc_shard::Shard;
use ndc_world::ShardWorld;
use std::alloc::{AllocError, Global};

/// Whether a cell has learned the batch of a message and the one that it carries.
fn is_learned(cell: &Shard, sent: &Message) -> bool
    ensures { result ≡ is_message_learned cell.now sent.now }
{
    let batch = &sent.batch;
    if !cell.has_learned(&batch.domain, &batch.workflow, batch.key) {
        return false;
    }
    match sent.second.as_ref() {
        Some(second) => cell.has_learned(&second.domain, &second.workflow, second.key),
        None => true,
    }
}

/// Whether nothing is to be done for a message: the reader's cell has learned it, or it is not addressed to the reader.
fn needs_nothing(table: &DomainTable, reader: ClusterNo, cell: &Shard, sent: &Message) -> bool
    ensures { result ≡ needs_nothing reader table.now cell.now sent.now }
{
    is_learned(cell, sent) || !is_addressed(table, reader, sent)
}

/// Why an entry of a queue is not done.
#[tactic(auto, unfolding(crate::specs::Holding::reason_of))]
fn reason_of(world: &ShardWorld, lane: LaneAt, sent: &Message) -> Result<Reason, OutOfMemory>
    requires unspent { world.now.spent ≡ false }
    requires lane { IsLane world.now.header lane }
    ensures { IfOk result (λ reason. reason ≡ reason_of lane.reader lane.source lane.shard world.now.world sent.now) }
{
    let cell = world.cluster(lane.reader.number).shard(lane.shard);
    let table = world.cluster(lane.source.number).records();
    if needs_nothing(table, lane.reader, cell, sent) {
        return Ok(Reason::Needless);
    }
    let gaps = cell.gaps()?;
    let levels = world.levels(lane.reader, lane.source, lane.shard);
    let flight = world.flight(lane.reader, lane.source, lane.shard);
    Ok(reason_behind(
        lacked_by(&sent.batch, gaps.as_slice()),
        is_in_flight(&sent.batch, flight),
        has_letter(lane.source, &sent.batch, world.letters(lane.reader)),
        levels.done < levels.read,
    ))
}

/// Appends the entry that keeps the level `done` where it is, and why.
fn push_held(
    text: &mut Vec<u8>,
    header: &Header,
    world: &ShardWorld,
    lane: LaneAt,
    done: u64,
    sent: &Message,
) -> Result<(), OutOfMemory>
    requires unspent { world.now.spent ≡ false }
    requires header { world.now.header ≡ header.now }
    requires lane { IsLane header.now lane }
    ensures { OnOk result (text.new.items ≡ text.old.items ++ held_text header.now lane.reader lane.source lane.shard world.now.world done (Some sent.now)) }
{
    let reason = reason_of(world, lane, sent)?;
    text.extend_from_slice(b", the next is held\n")?;
    push_entry(text, done, sent)?;
    let reader = header.clusters.name(lane.reader).as_bytes();
    let source = header.clusters.name(lane.source).as_bytes();
    push_reason(text, reader, source, reason)
}

/// Appends how much of a queue is done at a reader, and what keeps it from more.
#[tactic(auto, unfolding(crate::specs::Holding::holds_text))]
fn push_holds(
    text: &mut Vec<u8>,
    header: &Header,
    world: &ShardWorld,
    lane: LaneAt,
) -> Result<(), OutOfMemory>
    requires unspent { world.now.spent ≡ false }
    requires header { world.now.header ≡ header.now }
    requires lane { IsLane header.now lane }
    ensures { OnOk result (text.new.items ≡ text.old.items ++ holds_text header.now lane.reader lane.source lane.shard world.now.world) }
{
    let done = world.levels(lane.reader, lane.source, lane.shard).done;
    let cell = world.cluster(lane.source.number).shard(lane.shard);
    let count = cell.written_len();
    push_done(text, done, count)?;
    if done >= count {
        return text.extend_from_slice(b", nothing holds it\n");
    }
    let sent = cell.written_at(done)?;
    push_held(text, header, world, lane, done, &sent)
}

/// Appends what is kept of a queue.
fn push_kept(
    text: &mut Vec<u8>,
    world: &ShardWorld,
    source: ClusterNo,
    shard: u32,
) -> Result<(), OutOfMemory>
    requires unspent { world.now.spent ≡ false }
    requires source { IsCluster world.now.header source }
    requires shard { shard < world.now.header.shards }
    ensures { OnOk result (text.new.items ≡ text.old.items ++ queue_text (trimmed_at source world.now.world shard) (drop (trimmed_at source world.now.world shard) (queue_at source shard world.now.world))) }
{
    let queue = world.queue(source, shard);
    // It has at most so many entries that they can be counted.
    let _len = queue.len();
    push_queue(text, queue.first(), queue.kept())
}

/// Appends the domains in which a reader is late at a source.
fn push_late_at(
    text: &mut Vec<u8>,
    header: &Header,
    world: &ShardWorld,
    reader: ClusterNo,
    source: ClusterNo,
) -> Result<(), OutOfMemory>
    requires unspent { world.now.spent ≡ false }
    requires reader { IsCluster header.now reader }
    requires source { IsCluster header.now source }
    ensures { OnOk result (text.new.items ≡ text.old.items ++ late_text (name_of header.now.clusters reader) (name_of header.now.clusters source) (link_at reader source world.now.world).late) }
{
    let late = world.late(reader, source);
    let reader = header.clusters.name(reader).as_bytes();
    let source = header.clusters.name(source).as_bytes();
    push_late(text, reader, source, late)
}

/// Appends what a world answers to a question.
#[tactic(auto, unfolding(crate::specs::Answers::told_of))]
fn push_told(
    text: &mut Vec<u8>,
    alloc: Global,
    header: &Header,
    world: &ShardWorld,
    question: &Question,
) -> Result<(), OutOfMemory>
    requires unspent { world.now.spent ≡ false }
    requires header { world.now.header ≡ header.now }
    requires fit { IsWellFormedHeader header.now }
    requires question { IsQuestion header.now question.now }
    ensures { OnOk result (text.new.items ≡ text.old.items ++ told_of header.now question.now world.now.world) }
{
    match question {
        Question::Flight(lane) => push_flight(
            text,
            world.flight(lane.reader, lane.source, lane.shard),
        ),
        Question::Holds(lane) => push_holds(text, header, world, *lane),
        Question::Queue { source, shard } => push_kept(text, world, *source, *shard),
        Question::Late { reader, source } => push_late_at(text, header, world, *reader, *source),
        Question::Workflows(at) => push_all_workflows(text, alloc, header, world, at),
        Question::Forks(at) => push_forks(text, alloc, header, world, at),
        Question::Dumps(at) => push_dumps(text, alloc, header, world, at),
        Question::Differs { one, two, domain } => {
            push_differs(text, alloc, header, world, *one, *two, domain)
        }
    }
}

/// Appends words, each after a space.
fn push_words(text: &mut Vec<u8>, words: &[&[u8]]) -> Result<(), OutOfMemory>
    ensures { OnOk result (text.new.items ≡ text.old.items ++ spaced (map (λ word. word.now) words.now)) }
{
    for word in words {
        text.extend_from_slice(b" ")?;
        text.extend_from_slice(word)?;
    }
    Ok(())
}

/// Appends words with a space between them.
fn push_joined(text: &mut Vec<u8>, words: &[&[u8]]) -> Result<(), OutOfMemory>
    ensures { OnOk result (text.new.items ≡ text.old.items ++ joined (map (λ word. word.now) words.now)) }
{
    match words {
        [first, later @ ..] => {
            text.extend_from_slice(first)?;
            push_words(text, later)
        }
        [] => Ok(()),
    }
}

/// Appends the answer to a question.
#[tactic(auto, unfolding(crate::specs::Answers::answer_to))]
pub(crate) fn push_answer(
    text: &mut Vec<u8>,
    alloc: Global,
    header: &Header,
    world: &ShardWorld,
    asked: &KeptLine,
) -> Result<(), OutOfMemory>
    requires unspent { world.now.spent ≡ false }
    requires header { world.now.header ≡ header.now }
    requires fit { IsWellFormedHeader header.now }
    ensures { OnOk result (text.new.items ≡ text.old.items ++ answer_to header.now world.now.world asked.now) }
{
    push_joined(text, asked.words())?;
    text.extend_from_slice(b": ")?;
    match question_of(alloc, header, asked) {
        Ok(question) => push_told(text, alloc, header, world, &question),
        Err(ScriptError::Refused { .. }) => push_unasked(text, header, asked.words()),
        Err(ScriptError::Memory) => Err(AllocError),
    }
}
