use crate::heard::Heard;
use crate::letter::LetterCause;
use crate::node::Node;
use crate::past::Past;
use ndc_domain::ClusterNo;
use ndc_event::{Batch, BatchKey, Name, OutOfMemory};
use ndc_model_cells::Message;
use ndc_node_messages::{MessageError, read_message};
use ndc_node_store::BatchPlace;
use ndc_shard::{Admission, AdmitError, Batches, CellTerms, NotAdmitted, SetAside};
use ndc_state::Steps;
use std::alloc::AllocError;

/// Counts the steps of learning.
struct Learning;

/// What became of a message that a node took up.
#[derive(Clone, Copy, PartialEq, Eq)]
pub(crate) enum Came {
    /// It is learned, was known, or was put off.
    In,
    /// It is a letter.
    Letter,
    /// It is not taken, and is to be asked for again: a bound is reached, or the node has to find first what it lacks.
    Later,
}

impl Node {
    /// Takes up a message that a peer sent: it is admitted, or becomes a letter. One that is of another shard than it was
    /// told for is a letter.
    pub(crate) fn take_message(
        &mut self,
        from: ClusterNo,
        told_for: Option<u32>,
        text: &[u8],
        message: Message,
        heard: &mut Heard,
    ) -> Result<Came, OutOfMemory> {
        let at = BatchPlace::of(&message.batch)?;
        let shard = self.shard_of(&at.domain, &at.workflow);
        if told_for.is_some_and(|one| one != shard) {
            return self.set_aside(from, Some(at), text, LetterCause::OtherShard, heard);
        }
        let Some(cause) = self.admit(shard, text, message, heard)? else {
            return Ok(Came::In);
        };
        if self.is_for_later(cause, heard) {
            return Ok(Came::Later);
        }
        self.set_aside(from, Some(at), text, LetterCause::NotAdmitted(cause), heard)
    }

    /// Takes up the text of a message that a peer sent.
    pub(crate) fn take_text(
        &mut self,
        from: ClusterNo,
        text: &[u8],
        heard: &mut Heard,
    ) -> Result<Came, OutOfMemory> {
        match read_message(self.alloc, text) {
            Ok(message) => self.take_message(from, None, text, message, heard),
            Err(MessageError::Memory) => Err(AllocError),
            Err(error) => self.set_aside(from, None, text, LetterCause::Text(error), heard),
        }
    }

    /// Whether a message that is not admitted is to be asked for again: there is no room for it, or it tells of something of
    /// this cluster that the node may have lost, and then the node is behind its past.
    fn is_for_later(&mut self, cause: NotAdmitted, heard: &mut Heard) -> bool {
        match cause {
            NotAdmitted::Full => {
                heard.is_full = true;
                true
            }
            NotAdmitted::OwnVersion | NotAdmitted::OwnOrigin => {
                let is_lost = self.may_lack_own();
                if is_lost && self.past == Past::Whole {
                    self.fall_behind();
                    heard.changed = true;
                }
                is_lost
            }
            _ => false,
        }
    }

    /// A message is admitted to the cell of its shard: why it is not, where it is not.
    fn admit(
        &mut self,
        shard: u32,
        text: &[u8],
        message: Message,
        heard: &mut Heard,
    ) -> Result<Option<NotAdmitted>, OutOfMemory> {
        let recall = self.may_be_lost(&message.batch.domain, message.batch.key.version);
        let Some(seat) = self.seats.get_mut(shard as usize) else {
            return Ok(Some(NotAdmitted::Full));
        };
        let terms = CellTerms {
            clusters: &self.clusters,
            me: self.me,
            recall,
            most_waiting: self.bounds.waiting,
        };
        let mut steps: Steps<Learning> = Steps::new();
        match seat.cell.admit(&terms, message, &mut steps) {
            Err(AdmitError::Memory) | Err(AdmitError::Spent) => Err(AllocError),
            Ok(Admission::Refused { cause }) => Ok(Some(cause)),
            Ok(Admission::Known) => Ok(None),
            Ok(Admission::PutOff { .. }) => {
                self.note_put_off(shard, text, heard)?;
                Ok(None)
            }
            Ok(Admission::Learned { batches, aside }) => {
                self.note_learned(shard, batches, aside, heard)?;
                Ok(None)
            }
        }
    }

    /// A message was put off, of which this is the text: a copy is kept.
    fn note_put_off(
        &mut self,
        shard: u32,
        text: &[u8],
        heard: &mut Heard,
    ) -> Result<(), OutOfMemory> {
        let Ok(message) = read_message(self.alloc, text) else {
            return Err(AllocError);
        };
        if let Some(seat) = self.seats.get_mut(shard as usize) {
            seat.put_off.push(message)?;
        }
        heard.put_off = heard.put_off.saturating_add(1);
        heard.changed = true;
        Ok(())
    }

    /// Batches became learned, and messages that had waited were set aside.
    fn note_learned(
        &mut self,
        shard: u32,
        batches: Batches,
        aside: Vec<SetAside>,
        heard: &mut Heard,
    ) -> Result<(), OutOfMemory> {
        heard.changed = true;
        if batches.as_slice().len() > 1 || !aside.is_empty() {
            if let Some(seat) = self.seats.get_mut(shard as usize) {
                seat.let_go(aside.as_slice())?;
            }
        }
        self.let_go(shard, batches.as_slice());
        self.queue_up_own(shard, batches.as_slice())?;
        let mut batches = batches.into_vec();
        heard.learned.append(&mut batches)?;
        self.take_aside(aside, heard)
    }

    /// Batches are learned: no lane holds them any more. Takes no memory.
    fn let_go(&mut self, shard: u32, batches: &[Batch]) {
        for peer in self.peers.as_mut_slice() {
            for batch in batches {
                peer.learned(shard, &batch.domain, &batch.workflow, batch.key);
            }
        }
    }

    /// Those of the batches that this cluster has written came back: their messages go last in the queue.
    fn queue_up_own(&mut self, shard: u32, batches: &[Batch]) -> Result<(), OutOfMemory> {
        for batch in batches {
            if !self.is_own(batch.key.version) {
                continue;
            }
            if let Some(seat) = self.seats.get_mut(shard as usize) {
                seat.queue_up(&batch.domain, &batch.workflow, batch.key)?;
            }
        }
        Ok(())
    }

    /// Whether a batch is learned.
    pub(crate) fn has_learned(&self, domain: &Name, workflow: &Name, key: BatchKey) -> bool {
        match self.cell_of(domain, workflow) {
            Some(cell) => cell.has_learned(domain, workflow, key),
            None => false,
        }
    }
}
