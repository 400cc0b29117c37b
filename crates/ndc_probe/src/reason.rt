use ndc_event::BatchKey;

/// Why an entry of a queue is not done at a reader.
#[derive(Clone, Copy, Debug, PartialEq, Eq)]
pub enum Reason {
    /// Nothing is to be done for it: the reader has learned it, or it is not addressed to the reader.
    Needless,
    /// It has arrived and is put off, since this batch has not come.
    PutOff { missing: BatchKey },
    /// It is in flight.
    InFlight,
    /// It came damaged, and was set aside.
    Letter,
    /// It was not read.
    Unread,
    /// It was read, and what was sent is lost.
    Lost,
}
