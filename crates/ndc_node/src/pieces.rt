use crate::node::Node;
use ndc_domain::ClusterNo;
use ndc_event::{Items, OutOfMemory};
use ndc_node_frames::{
    Body, Bootstrap, Entries, EntryList, Frame, Messages, Offers, Recalled, ToldRecords, frame_text,
};
use std::alloc::Global;

/// How often what is to be told is halved, so that its frame fits: a frame has not more than 2^64 entries.
const MAX_HALVES: u32 = 64;

impl Node {
    /// The frame of a piece, or of as many of its messages as the other node takes, one at least.
    pub(crate) fn fitting(
        &self,
        to: ClusterNo,
        piece: Body,
        largest: u64,
    ) -> Result<Items<u8>, OutOfMemory> {
        let mut piece = piece;
        for _half in 0..MAX_HALVES {
            let count = count_of(&piece);
            let frame = self.frame_of(to, piece)?;
            let text = frame_text(self.alloc, &frame)?;
            if text.len() as u64 <= largest || count < 2 {
                return Ok(Items::new(text));
            }
            let Frame { body, .. } = frame;
            piece = prefix_of(self.alloc, body, count / 2);
        }
        self.frame(to, piece)
    }
}

/// How many messages a piece has; none where the body is no piece.
fn count_of(body: &Body) -> usize {
    match body {
        Body::Entries(piece) => piece.entries.as_slice().len(),
        Body::Bootstrap(piece) => piece.messages.as_slice().len(),
        Body::Recalled(piece) => piece.messages.as_slice().len(),
        _ => 0,
    }
}

/// A piece with its first messages alone.
fn prefix_of(alloc: Global, body: Body, kept: usize) -> Body {
    match body {
        Body::Entries(whole) => Body::Entries(first_entries(whole, kept)),
        Body::Bootstrap(whole) => Body::Bootstrap(first_of_domain(whole, kept)),
        Body::Recalled(whole) => Body::Recalled(first_recalled(alloc, whole, kept)),
        other => other,
    }
}

/// A piece of a queue with its first entries alone.
fn first_entries(whole: Entries, kept: usize) -> Entries {
    let Entries {
        shard,
        epoch,
        from,
        next,
        late,
        entries,
    } = whole;
    let next = match entries.as_slice().get(kept) {
        Some(entry) => entry.place,
        None => next,
    };
    let mut entries = entries.into_vec();
    entries.truncate(kept);
    Entries {
        shard,
        epoch,
        from,
        next,
        late,
        entries: EntryList::new(entries),
    }
}

/// A piece of a domain with its first messages alone, which are not the last ones then.
fn first_of_domain(whole: Bootstrap, kept: usize) -> Bootstrap {
    let Bootstrap {
        domain,
        from,
        messages,
        last,
    } = whole;
    let is_whole = messages.as_slice().len() <= kept;
    Bootstrap {
        domain,
        from,
        messages: first_messages(messages, kept),
        last: last && is_whole,
    }
}

/// A piece for a recall with its first messages alone, which are not the last ones then: what comes with the last ones is left
/// for a later piece.
fn first_recalled(alloc: Global, whole: Recalled, kept: usize) -> Recalled {
    let Recalled {
        after,
        messages,
        last: _last,
        records: _records,
        handovers: _handovers,
    } = whole;
    Recalled {
        after,
        messages: first_messages(messages, kept),
        last: false,
        records: ToldRecords::new(Vec::new(alloc)),
        handovers: Offers::new(Vec::new(alloc)),
    }
}

/// The first messages alone.
fn first_messages(messages: Messages, kept: usize) -> Messages {
    let mut messages = messages.into_vec();
    messages.truncate(kept);
    Messages::new(messages)
}
