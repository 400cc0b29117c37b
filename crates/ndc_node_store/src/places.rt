use crate::shards::{Level, LevelList};
use ndc_event::{Batch, BatchKey, Name, OutOfMemory};
use ndc_node_shapes::framed::{push_list, push_nullable, take_list, take_nullable};
use ndc_node_shapes::piece::{
    MAX_VERSION, push_end, push_first, push_next, push_number, take_end, take_first, take_name,
    take_next, take_number,
};
use ndc_node_shapes::{Fault, Framed, Text};
use std::alloc::Global;

/// The greatest number of a cluster.
const MAX_CLUSTER: u64 = 7;

/// Where a batch stands.
#[derive(Drop)]
pub struct BatchPlace {
    /// Its domain.
    pub domain: Name,
    /// Its workflow.
    pub workflow: Name,
    /// Its key there.
    pub key: BatchKey,
}

/// The greatest version of its own with which a node may have written to a domain before it lost something.
#[derive(Drop)]
pub struct UsedVersion {
    /// The domain.
    pub domain: Name,
    /// The version, 0 to 10^13.
    pub version: u64,
}

/// A handover that a node has begun and that is open.
#[derive(Drop)]
pub struct OpenHandover {
    /// The domain that is handed over.
    pub domain: Name,
    /// The version of the record that the handover has made, 0 to 10^13.
    pub new: u64,
    /// The version of the record before, 0 to 10^13.
    pub old: u64,
    /// For each shard how far the target is to be done.
    pub places: LevelList,
    /// The number of the cluster that is to be active, 0 to 7.
    pub to: u32,
}

/// A message that a node has set aside.
#[derive(Drop)]
pub struct LetterLine {
    /// Where it would stand, where its text is that of a message.
    pub at: Option<BatchPlace>,
    /// Why it was set aside.
    pub cause: Text,
    /// The number of the cluster that sent it, 0 to 7.
    pub source: u32,
    /// Its text.
    pub text: Text,
}

impl BatchPlace {
    /// Where this batch stands.
    pub fn of(batch: &Batch) -> Result<BatchPlace, OutOfMemory> {
        Ok(BatchPlace {
            domain: batch.domain.try_copy()?,
            workflow: batch.workflow.try_copy()?,
            key: batch.key,
        })
    }

    /// The same place.
    pub fn try_copy(&self) -> Result<BatchPlace, OutOfMemory> {
        Ok(BatchPlace {
            domain: self.domain.try_copy()?,
            workflow: self.workflow.try_copy()?,
            key: self.key,
        })
    }
}

impl Framed for BatchPlace {
    ghost use Rattle.ndc_node_store.specs.Lines.{batch_place_shape, batch_place_value};

    ghost shape = { batch_place_shape };

    ghost value = { batch_place_value };

    fn push(&self, text: &mut Vec<u8>) -> Result<(), OutOfMemory> {
        push_first(text, "domain")?;
        self.domain.push(text)?;
        push_next(text, "key")?;
        self.key.push(text)?;
        push_next(text, "workflow")?;
        self.workflow.push(text)?;
        push_end(text)
    }

    fn take(alloc: Global, left: &[u8]) -> Result<(BatchPlace, &[u8]), Fault> {
        let left = take_first(left, "domain")?;
        let (domain, left) = take_name(alloc, left)?;
        let left = take_next(left, "key")?;
        let (key, left) = BatchKey::take(alloc, left)?;
        let left = take_next(left, "workflow")?;
        let (workflow, left) = take_name(alloc, left)?;
        let left = take_end(left)?;
        Ok((
            BatchPlace {
                domain,
                workflow,
                key,
            },
            left,
        ))
    }
}

impl Framed for UsedVersion {
    ghost use Rattle.ndc_node_store.specs.Lines.{used_shape, used_value};

    ghost shape = { used_shape };

    ghost value = { used_value };

    fn push(&self, text: &mut Vec<u8>) -> Result<(), OutOfMemory> {
        push_first(text, "domain")?;
        self.domain.push(text)?;
        push_next(text, "version")?;
        push_number(text, self.version)?;
        push_end(text)
    }

    fn take(alloc: Global, left: &[u8]) -> Result<(UsedVersion, &[u8]), Fault> {
        let left = take_first(left, "domain")?;
        let (domain, left) = take_name(alloc, left)?;
        let left = take_next(left, "version")?;
        let (version, left) = take_number(left, 0, MAX_VERSION)?;
        let left = take_end(left)?;
        Ok((UsedVersion { domain, version }, left))
    }
}

impl Framed for OpenHandover {
    ghost use Rattle.ndc_node_store.specs.Lines.{handover_shape, handover_value};

    ghost shape = { handover_shape };

    ghost value = { handover_value };

    fn push(&self, text: &mut Vec<u8>) -> Result<(), OutOfMemory> {
        push_first(text, "domain")?;
        self.domain.push(text)?;
        push_next(text, "new")?;
        push_number(text, self.new)?;
        push_next(text, "old")?;
        push_number(text, self.old)?;
        push_next(text, "places")?;
        push_list(text, self.places.as_slice())?;
        push_next(text, "to")?;
        push_number(text, u64::from(self.to))?;
        push_end(text)
    }

    fn take(alloc: Global, left: &[u8]) -> Result<(OpenHandover, &[u8]), Fault> {
        let left = take_first(left, "domain")?;
        let (domain, left) = take_name(alloc, left)?;
        let left = take_next(left, "new")?;
        let (new, left) = take_number(left, 0, MAX_VERSION)?;
        let left = take_next(left, "old")?;
        let (old, left) = take_number(left, 0, MAX_VERSION)?;
        let left = take_next(left, "places")?;
        let (places, left) = take_list::<Level>(alloc, left)?;
        let left = take_next(left, "to")?;
        let (to, left) = take_number(left, 0, MAX_CLUSTER)?;
        let left = take_end(left)?;
        let places = LevelList::new(places);
        let to = to as u32;
        Ok((
            OpenHandover {
                domain,
                new,
                old,
                places,
                to,
            },
            left,
        ))
    }
}

impl Framed for LetterLine {
    ghost use Rattle.ndc_node_store.specs.Lines.{letter_shape, letter_value};

    ghost shape = { letter_shape };

    ghost value = { letter_value };

    fn push(&self, text: &mut Vec<u8>) -> Result<(), OutOfMemory> {
        push_first(text, "at")?;
        push_nullable(text, self.at.as_ref())?;
        push_next(text, "cause")?;
        self.cause.push(text)?;
        push_next(text, "source")?;
        push_number(text, u64::from(self.source))?;
        push_next(text, "text")?;
        self.text.push(text)?;
        push_end(text)
    }

    fn take(alloc: Global, left: &[u8]) -> Result<(LetterLine, &[u8]), Fault> {
        let left = take_first(left, "at")?;
        let (at, left) = take_nullable::<BatchPlace>(alloc, left)?;
        let left = take_next(left, "cause")?;
        let (cause, left) = Text::take(alloc, left)?;
        let left = take_next(left, "source")?;
        let (source, left) = take_number(left, 0, MAX_CLUSTER)?;
        let left = take_next(left, "text")?;
        let (text, left) = Text::take(alloc, left)?;
        let left = take_end(left)?;
        let source = source as u32;
        Ok((
            LetterLine {
                at,
                cause,
                source,
                text,
            },
            left,
        ))
    }
}
