use ndc_domain::ClusterNo;
use ndc_event::{Items, OutOfMemory};
use ndc_node_messages::MessageError;
use ndc_node_store::BatchPlace;
use ndc_shard::NotAdmitted;
use std::alloc::Global;

/// Why a message is set aside.
#[derive(Clone, Copy, Debug)]
pub(crate) enum LetterCause {
    /// Its text is that of no message.
    Text(MessageError),
    /// It is of a workflow of another shard than the one it was told for.
    OtherShard,
    /// It was not admitted, or had been put off and did not fit once what it waited for was learned.
    NotAdmitted(NotAdmitted),
}

/// A message that a node set aside: it is not learned, and what waits for it goes on waiting.
#[derive(Drop)]
pub struct Letter {
    /// Who sent it.
    pub source: ClusterNo,
    /// Where it would stand, where its text is that of a message.
    pub at: Option<BatchPlace>,
    /// Its text.
    pub text: Items<u8>,
    /// Why it was set aside, in words: `Text`, `OtherShard` or `NotAdmitted`, with the cause.
    pub cause: Items<u8>,
}

impl LetterCause {
    /// The cause in words.
    pub(crate) fn words(self, alloc: Global) -> Result<Items<u8>, OutOfMemory> {
        let words = format!(in alloc; "{self:?}")?;
        let mut bytes = Vec::new(alloc);
        bytes.extend_from_slice(words.as_bytes())?;
        Ok(Items::new(bytes))
    }
}

impl Letter {
    /// Whether it is of this source, and of the batch that stands there.
    pub(crate) fn is_of(&self, source: ClusterNo, place: &BatchPlace) -> bool {
        match &self.at {
            None => false,
            Some(at) => {
                self.source == source
                    && at.key == place.key
                    && at.workflow == place.workflow
                    && at.domain == place.domain
            }
        }
    }

    /// Whether it is of this source and has this text.
    pub(crate) fn is_text_of(&self, source: ClusterNo, text: &[u8]) -> bool {
        self.source == source && self.text.as_slice() == text
    }
}
