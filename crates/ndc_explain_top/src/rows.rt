//! What each dump of a workflow has, and where they differ.
ghost use Rattle.std.specs.Prelude.{◌≡◌, ◌++◌, IfOk, OnOk, length, map};
ghost use Rattle.std.specs.List.{flat_map};
ghost use Rattle.std.specs.Option.{option_copied};
ghost use Rattle.ndc_explain_top.specs.Rows.{are_of_one, are_short, batch_told, difference_at, difference_told, differences_told, event_behind, gathered, has_all, has_dump, is_of, lack_line, missing_line, missing_told, of_text, other_line, row_line, rows_told, spot_text};

use ndc_domain::Clusters;
use ndc_dump_causes::found::batch_at;
use ndc_event::{Batch, Event, Name, OutOfMemory};
use ndc_explain::losses::{push_batch, push_event};
use ndc_explain_union::{Spot, Taken, WorkflowName, are_same, is_same, united};
use ndc_text::dump::push_heading;
use ndc_text::line::push_number;
use std::alloc::Global;
use std::marker::Model;

/// What is told of together: the clusters that the input names, a workflow, its dumps, and the batches of these.
#[derive(Drop)]
pub(crate) struct Group<'a> {
    named: &'a [Name],
    workflow: &'a WorkflowName,
    dumps: &'a [Taken],
    union: Vec<&'a Batch>,
}

impl<'a> Model for Group<'a> {
    ghost use Rattle.std.specs.Prelude.{map};
    ghost use Rattle.ndc_explain_top.specs.Rows.{Gathered};

    ghost Value = { Gathered };

    ghost view = { λ it. record {
      named = it.named.now;
      workflow = it.workflow.now;
      dumps = it.dumps.now;
      union = map (λ b. b.now) it.union.items;
    } };
}

/// The dumps of a workflow, with the batches that they have together.
pub(crate) fn gathered<'a>(
    alloc: Global,
    named: &'a [Name],
    workflow: &'a WorkflowName,
    dumps: &'a [Taken],
) -> Result<Group<'a>, OutOfMemory>
    ensures { IfOk result (λ it. it ≡ gathered named.now workflow.now dumps.now) }
{
    let union = united(alloc, dumps)?;
    Ok(Group {
        named,
        workflow,
        dumps,
        union,
    })
}

/// Appends ` of` and the name of a cluster, where there is one.
fn push_of(text: &mut Vec<u8>, cluster: &Option<Name>) -> Result<(), OutOfMemory>
    ensures { OnOk result (text.new.items ≡ text.old.items ++ of_text cluster.now) }
{
    match cluster {
        None => Ok(()),
        Some(name) => {
            text.extend_from_slice(b" of ")?;
            text.extend_from_slice(name.as_bytes())
        }
    }
}

/// Appends a dump by its number and its cluster.
#[tactic(auto, unfolding(crate::specs::Rows::spot_text))]
fn push_spot(text: &mut Vec<u8>, spot: &Spot) -> Result<(), OutOfMemory>
    ensures { OnOk result (text.new.items ≡ text.old.items ++ spot_text spot.now) }
{
    text.extend_from_slice(b"dump ")?;
    push_number(text, spot.number)?;
    push_of(text, &spot.cluster)
}

/// Appends how many of so many batches a dump has.
#[tactic(auto, unfolding(crate::specs::Rows::row_line))]
fn push_row(text: &mut Vec<u8>, all: usize, taken: &Taken) -> Result<(), OutOfMemory>
    ensures { OnOk result (text.new.items ≡ text.old.items ++ row_line all taken.now) }
{
    push_spot(text, taken.spot())?;
    text.extend_from_slice(b": ")?;
    push_number(text, taken.batches().len() as u64)?;
    text.extend_from_slice(b" of ")?;
    push_number(text, all as u64)?;
    text.extend_from_slice(b" batches\n")
}

/// Whether a dump is this cluster's.
fn is_of(name: &Name, cluster: &Option<Name>) -> bool
    ensures { result ≡ is_of name.now cluster.now }
{
    match cluster {
        None => false,
        Some(cluster) => cluster == name,
    }
}

/// Whether one of the dumps is this cluster's.
fn has_dump(dumps: &[Taken], name: &Name) -> bool
    ensures { result ≡ has_dump dumps.now name.now }
{
    for taken in dumps {
        if is_of(name, &taken.spot().cluster) {
            return true;
        }
    }
    false
}

/// Appends the line of a cluster of which there is no dump.
#[tactic(auto, unfolding(crate::specs::Rows::missing_line))]
fn push_missing(text: &mut Vec<u8>, name: &Name) -> Result<(), OutOfMemory>
    ensures { OnOk result (text.new.items ≡ text.old.items ++ missing_line name.now) }
{
    text.extend_from_slice(b"cluster ")?;
    text.extend_from_slice(name.as_bytes())?;
    text.extend_from_slice(b": no dump\n")
}

/// Appends the line of a cluster, where it has no dump.
#[tactic(auto, unfolding(crate::specs::Rows::missing_told))]
fn push_missing_told(text: &mut Vec<u8>, dumps: &[Taken], name: &Name) -> Result<(), OutOfMemory>
    ensures { OnOk result (text.new.items ≡ text.old.items ++ missing_told dumps.now name.now) }
{
    if has_dump(dumps, name) {
        return Ok(());
    }
    push_missing(text, name)
}

/// Appends an event after others.
#[tactic(auto, unfolding(crate::specs::Rows::event_behind))]
fn push_event_behind(text: &mut Vec<u8>, event: &Event) -> Result<(), OutOfMemory>
    ensures { OnOk result (text.new.items ≡ text.old.items ++ event_behind event.now) }
{
    text.extend_from_slice(b"; ")?;
    push_event(text, event)
}

/// Appends events after others.
fn push_events(text: &mut Vec<u8>, events: &[Event]) -> Result<(), OutOfMemory>
    ensures { OnOk result (text.new.items ≡ text.old.items ++ flat_map event_behind events.now) }
{
    for event in events {
        push_event_behind(text, event)?;
    }
    Ok(())
}

/// Appends a batch with its events.
#[tactic(auto, unfolding(crate::specs::Rows::batch_told))]
fn push_batch_told(
    text: &mut Vec<u8>,
    clusters: &Option<Clusters>,
    batch: &Batch,
) -> Result<(), OutOfMemory>
    ensures { OnOk result (text.new.items ≡ text.old.items ++ batch_told clusters.now batch.now) }
{
    push_batch(text, clusters, batch.key)?;
    push_events(text, batch.events.as_slice())?;
    text.extend_from_slice(b"\n")
}

/// Appends the line of a batch that a dump lacks.
#[tactic(auto, unfolding(crate::specs::Rows::lack_line))]
fn push_lack(
    text: &mut Vec<u8>,
    clusters: &Option<Clusters>,
    spot: &Spot,
    batch: &Batch,
) -> Result<(), OutOfMemory>
    ensures { OnOk result (text.new.items ≡ text.old.items ++ lack_line clusters.now spot.now batch.now) }
{
    push_spot(text, spot)?;
    text.extend_from_slice(b" lacks ")?;
    push_batch_told(text, clusters, batch)
}

/// Appends the line of a batch that has another content in a dump before.
#[tactic(auto, unfolding(crate::specs::Rows::other_line))]
fn push_other(
    text: &mut Vec<u8>,
    clusters: &Option<Clusters>,
    spot: &Spot,
    batch: &Batch,
) -> Result<(), OutOfMemory>
    ensures { OnOk result (text.new.items ≡ text.old.items ++ other_line clusters.now spot.now batch.now) }
{
    text.extend_from_slice(b"equivocation: ")?;
    push_spot(text, spot)?;
    text.extend_from_slice(b" has another ")?;
    push_batch_told(text, clusters, batch)
}

/// Appends how a dump differs from the union in a batch, of which it has this one or none.
fn push_difference(
    alloc: Global,
    text: &mut Vec<u8>,
    clusters: &Option<Clusters>,
    spot: &Spot,
    own: Option<&Batch>,
    batch: &Batch,
) -> Result<(), OutOfMemory>
    ensures { OnOk result (text.new.items ≡ text.old.items ++ difference_told clusters.now spot.now (option_copied own.entry) batch.now) }
{
    let Some(own) = own else {
        return push_lack(text, clusters, spot, batch);
    };
    if is_same(alloc, own, batch)? {
        return Ok(());
    }
    push_other(text, clusters, spot, own)
}

/// Appends how a dump differs from the union in a batch.
#[tactic(auto, unfolding(crate::specs::Rows::difference_at))]
fn push_difference_at(
    alloc: Global,
    text: &mut Vec<u8>,
    clusters: &Option<Clusters>,
    taken: &Taken,
    batch: &Batch,
) -> Result<(), OutOfMemory>
    ensures { OnOk result (text.new.items ≡ text.old.items ++ difference_at clusters.now taken.now batch.now) }
{
    let own = batch_at(taken.batches(), batch.key);
    push_difference(alloc, text, clusters, taken.spot(), own, batch)
}

/// Appends how a dump differs from the union.
#[tactic(auto, unfolding(crate::specs::Rows::differences_told))]
fn push_differences(
    alloc: Global,
    text: &mut Vec<u8>,
    clusters: &Option<Clusters>,
    union: &[&Batch],
    taken: &Taken,
) -> Result<(), OutOfMemory>
    ensures { OnOk result (text.new.items ≡ text.old.items ++ differences_told clusters.now (map (λ b. b.now) union.now) taken.now) }
{
    for batch in union {
        push_difference_at(alloc, text, clusters, taken, batch)?;
    }
    Ok(())
}

/// Whether a dump has all batches.
fn has_all(union: &[&Batch], taken: &Taken) -> bool
    ensures { result ≡ has_all (map (λ b. b.now) union.now) taken.now }
{
    let batches = taken.batches();
    for batch in union {
        if batch_at(batches, batch.key).is_none() {
            return false;
        }
    }
    true
}

impl<'a> Group<'a> {
    ghost use Rattle.std.specs.Prelude.{◌≡◌, ◌++◌, IfOk, OnOk, length};
    ghost use Rattle.std.specs.List.{flat_map, list_all};
    ghost use Rattle.ndc_explain_top.specs.Rows.{are_of_one, are_short, differences_told, has_all, has_dump, missing_told, row_line, rows_told};

    /// The workflow.
    pub(crate) fn workflow(&self) -> &WorkflowName
        ensures { result.now ≡ self.now.workflow }
    {
        self.workflow
    }

    /// Its dumps.
    pub(crate) fn dumps(&self) -> &[Taken]
        ensures { result.now ≡ self.now.dumps }
    {
        self.dumps
    }

    /// The batches of all its dumps.
    pub(crate) fn union(&self) -> &[&'a Batch]
        ensures { map (λ b. b.now) result.now ≡ self.now.union }
    {
        self.union.as_slice()
    }

    /// Appends how many batches each dump has.
    fn push_counts(&self, text: &mut Vec<u8>) -> Result<(), OutOfMemory>
        ensures { OnOk result (text.new.items ≡ text.old.items ++ flat_map (row_line (length self.now.union)) self.now.dumps) }
    {
        for taken in self.dumps {
            push_row(text, self.union.len(), taken)?;
        }
        Ok(())
    }

    /// Appends which clusters have no dump.
    fn push_each_missing(&self, text: &mut Vec<u8>) -> Result<(), OutOfMemory>
        ensures { OnOk result (text.new.items ≡ text.old.items ++ flat_map (missing_told self.now.dumps) self.now.named) }
    {
        for name in self.named {
            push_missing_told(text, self.dumps, name)?;
        }
        Ok(())
    }

    /// Appends how each dump differs from the union.
    fn push_each_difference(
        &self,
        alloc: Global,
        text: &mut Vec<u8>,
        clusters: &Option<Clusters>,
    ) -> Result<(), OutOfMemory>
        ensures { OnOk result (text.new.items ≡ text.old.items ++ flat_map (differences_told clusters.now self.now.union) self.now.dumps) }
    {
        for taken in self.dumps {
            push_differences(alloc, text, clusters, self.union.as_slice(), taken)?;
        }
        Ok(())
    }

    /// Appends the lines of the workflow before its explanation.
    #[tactic(auto, unfolding(crate::specs::Rows::rows_told))]
    pub(crate) fn push_rows(
        &self,
        alloc: Global,
        text: &mut Vec<u8>,
        clusters: &Option<Clusters>,
    ) -> Result<(), OutOfMemory>
        ensures { OnOk result (text.new.items ≡ text.old.items ++ rows_told clusters.now self.now) }
    {
        push_heading(
            text,
            b"workflow ".as_slice(),
            &self.workflow.domain,
            &self.workflow.workflow,
        )?;
        self.push_counts(text)?;
        self.push_each_missing(text)?;
        self.push_each_difference(alloc, text, clusters)
    }

    /// Whether all dumps have one content under each key.
    pub(crate) fn are_of_one(&self, alloc: Global) -> Result<bool, OutOfMemory>
        ensures { IfOk result (λ same. same ≡ are_of_one self.now) }
    {
        for taken in self.dumps {
            if !are_same(alloc, taken.batches(), self.union.as_slice())? {
                return Ok(false);
            }
        }
        Ok(true)
    }

    /// Whether each dump has all batches.
    fn are_whole(&self) -> bool
        ensures { result ≡ list_all (has_all self.now.union) self.now.dumps }
    {
        for taken in self.dumps {
            if !has_all(self.union.as_slice(), taken) {
                return false;
            }
        }
        true
    }

    /// Whether each cluster has a dump.
    fn have_dumps(&self) -> bool
        ensures { result ≡ list_all (has_dump self.now.dumps) self.now.named }
    {
        for name in self.named {
            if !has_dump(self.dumps, name) {
                return false;
            }
        }
        true
    }

    /// Whether a dump lacks a batch, or a cluster has no dump.
    pub(crate) fn are_short(&self) -> bool
        ensures { result ≡ are_short self.now }
    {
        !self.are_whole() || !self.have_dumps()
    }
}
