use crate::heard::Heard;
use crate::node::Node;
use ndc_domain::ClusterNo;
use ndc_event::{Items, OutOfMemory};
use ndc_model_cells::Message;
use ndc_node_frames::{AskedGap, Body, Messages, Served, Text};
use ndc_node_messages::message_text;

impl Node {
    /// A peer asks for what lies before a batch that it has put off: what this node has of it is told, in frames that the
    /// peer takes.
    pub(crate) fn hear_gap(
        &mut self,
        from: ClusterNo,
        asked: AskedGap,
        heard: &mut Heard,
    ) -> Result<(), OutOfMemory> {
        let Some(cell) = self.cell_of(&asked.gap.domain, &asked.gap.workflow) else {
            return Ok(());
        };
        if !self.names(from, &asked.gap.domain) {
            return Ok(());
        }
        let messages = cell.serve(&asked.gap)?;
        let largest = match self.peers.get(from.number as usize) {
            Some(peer) => peer.largest,
            None => 0,
        };
        let mut texts = Vec::new(self.alloc);
        let mut bytes: u64 = 0;
        for message in messages {
            let text = self.text_of(&message)?;
            let more = quoted_len(text.as_slice());
            if largest < bytes.saturating_add(more) && !texts.is_empty() {
                let full = std::mem::replace(&mut texts, Vec::new(self.alloc));
                heard.answers.push(self.served(from, full)?)?;
                bytes = 0;
            }
            bytes = bytes.saturating_add(more);
            texts.push(text)?;
        }
        if !texts.is_empty() {
            heard.answers.push(self.served(from, texts)?)?;
        }
        Ok(())
    }

    /// The text of a message.
    fn text_of(&self, message: &Message) -> Result<Text, OutOfMemory> {
        Ok(Items::new(message_text(self.alloc, message)?))
    }

    /// The frame with these messages.
    fn served(&self, to: ClusterNo, texts: Vec<Text>) -> Result<Items<u8>, OutOfMemory> {
        self.frame(
            to,
            Body::Served(Served {
                messages: Messages::new(texts),
            }),
        )
    }

    /// Messages are heard that a peer serves.
    pub(crate) fn hear_served(
        &mut self,
        from: ClusterNo,
        served: Served,
        heard: &mut Heard,
    ) -> Result<(), OutOfMemory> {
        for text in served.messages.as_slice() {
            self.take_text(from, text.as_slice(), heard)?;
        }
        Ok(())
    }
}

/// How many bytes a text has at most when it is quoted, with a comma, in a frame.
fn quoted_len(text: &[u8]) -> u64 {
    (text.len() as u64).saturating_mul(2).saturating_add(3)
}
