use crate::admitting::Came;
use crate::error::CallError;
use crate::heard::Heard;
use crate::letter::{Letter, LetterCause};
use crate::node::Node;
use ndc_domain::ClusterNo;
use ndc_event::{Items, OutOfMemory};
use ndc_node_messages::message_text;
use ndc_node_store::BatchPlace;
use ndc_shard::SetAside;
use std::mem;

impl Node {
    /// The messages that were set aside, in order.
    pub fn letters(&self) -> &[Letter] {
        self.letters.as_slice()
    }

    /// Takes up all letters again, in order: those that are not admitted now are letters again, and so are those that are not
    /// taken for now.
    pub fn retry(&mut self) -> Result<Heard, CallError<()>> {
        self.begin()?;
        let heard = self.taken_again();
        self.end(heard)
    }

    /// All letters are taken up again.
    fn taken_again(&mut self) -> Result<Heard, CallError<()>> {
        let mut heard = Heard::nothing(self.alloc);
        self.take_letters_again(&mut heard)?;
        Ok(heard)
    }

    /// Takes up all letters again, in order.
    pub(crate) fn take_letters_again(&mut self, heard: &mut Heard) -> Result<(), OutOfMemory> {
        let letters = mem::replace(&mut self.letters, Vec::new(self.alloc));
        for letter in letters {
            let came = self.take_text(letter.source, letter.text.as_slice(), heard)?;
            match came {
                Came::In => heard.changed = true,
                Came::Letter => {}
                Came::Later => self.letters.push(letter)?,
            }
        }
        Ok(())
    }

    /// Lets go of a letter, by its place. What was told with it stays held, so that its source drops nothing from there on.
    /// Whether there was one.
    pub fn drop_letter(&mut self, place: usize) -> bool {
        if self.letters.len() <= place {
            return false;
        }
        self.letters.remove(place);
        true
    }

    /// A message is set aside, where there is room for one more letter.
    pub(crate) fn set_aside(
        &mut self,
        source: ClusterNo,
        at: Option<BatchPlace>,
        text: &[u8],
        cause: LetterCause,
        heard: &mut Heard,
    ) -> Result<Came, OutOfMemory> {
        if self.has_letter(source, at.as_ref(), text) {
            return Ok(Came::Letter);
        }
        if self.bounds.letters <= self.letters.len() {
            heard.is_full = true;
            return Ok(Came::Later);
        }
        self.put_letter(source, at, text, cause, heard)?;
        Ok(Came::Letter)
    }

    /// What had been put off and does not fit is set aside, as from this node itself, however many letters there are.
    pub(crate) fn take_aside(
        &mut self,
        aside: Vec<SetAside>,
        heard: &mut Heard,
    ) -> Result<(), OutOfMemory> {
        for one in aside {
            let SetAside { message, cause } = one;
            let text = message_text(self.alloc, &message)?;
            let at = BatchPlace::of(&message.batch)?;
            let cause = LetterCause::NotAdmitted(cause);
            self.put_letter(self.me, Some(at), text.as_slice(), cause, heard)?;
        }
        Ok(())
    }

    /// Whether there is a letter of this source and this batch, or this text.
    fn has_letter(&self, source: ClusterNo, at: Option<&BatchPlace>, text: &[u8]) -> bool {
        match at {
            Some(at) => self.letters.iter().any(|one| one.is_of(source, at)),
            None => self.letters.iter().any(|one| one.is_text_of(source, text)),
        }
    }

    /// One more letter.
    fn put_letter(
        &mut self,
        source: ClusterNo,
        at: Option<BatchPlace>,
        text: &[u8],
        cause: LetterCause,
        heard: &mut Heard,
    ) -> Result<(), OutOfMemory> {
        let mut bytes = Vec::new(self.alloc);
        bytes.extend_from_slice(text)?;
        self.letters.push(Letter {
            source,
            at,
            text: Items::new(bytes),
            cause: cause.words(self.alloc)?,
        })?;
        heard.letters = heard.letters.saturating_add(1);
        heard.changed = true;
        Ok(())
    }
}
