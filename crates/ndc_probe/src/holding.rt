//! What keeps the level `done` of a reader below the end of a queue.
ghost use Rattle.std.specs.Prelude.{◌≡◌, ◌++◌, OnOk};
ghost use Rattle.ndc_probe.specs.Holding.{done_text, has_letter, is_gap_of, is_in_flight, lacked_by, reason_behind, reason_text};

use crate::piece::{Piece, push_pieces};
use crate::reason::Reason;
use ndc_domain::ClusterNo;
use ndc_event::{Batch, BatchKey, OutOfMemory};
use ndc_letters::Letter;
use ndc_model_cells::Message;
use ndc_resend::GapOf;
use ndc_text::line::push_number;

/// Whether a gap is that before a batch.
fn is_gap_of(batch: &Batch, gap: &GapOf) -> bool
    ensures { result ≡ is_gap_of batch.now gap.now }
{
    gap.domain == batch.domain && gap.workflow == batch.workflow && gap.key == batch.key
}

/// The nearest ancestor that a batch lacks, where it is among those that are put off.
pub(crate) fn lacked_by(batch: &Batch, gaps: &[GapOf]) -> Option<BatchKey>
    ensures { result ≡ lacked_by batch.now gaps.now }
{
    for gap in gaps {
        if is_gap_of(batch, gap) {
            return Some(gap.missing);
        }
    }
    None
}

/// Whether the message of a batch is in flight.
pub(crate) fn is_in_flight(batch: &Batch, flight: &[Message]) -> bool
    ensures { result ≡ is_in_flight batch.now flight.now }
{
    flight.iter().any(|sent| {
        sent.batch.domain == batch.domain
            && sent.batch.workflow == batch.workflow
            && sent.batch.key == batch.key
    })
}

/// Whether the message of a batch of a source was set aside.
pub(crate) fn has_letter(source: ClusterNo, batch: &Batch, letters: &[Letter]) -> bool
    ensures { result ≡ has_letter source batch.now letters.now }
{
    letters.iter().any(|letter| {
        letter.source.number == source.number
            && (batch.domain == letter.domain
                && batch.workflow == letter.workflow
                && batch.key == letter.key)
    })
}

/// Why an entry of which something is still to be done is not done.
pub(crate) fn reason_behind(
    missing: Option<BatchKey>,
    flies: bool,
    is_set_aside: bool,
    is_read: bool,
) -> Reason
    ensures { result ≡ reason_behind missing flies is_set_aside is_read }
{
    if let Some(missing) = missing {
        return Reason::PutOff { missing };
    }
    if flies {
        Reason::InFlight
    } else if is_set_aside {
        Reason::Letter
    } else if is_read {
        Reason::Lost
    } else {
        Reason::Unread
    }
}

/// Appends what is to be done about an entry that is not done.
pub(crate) fn push_reason<'x>(
    text: &mut Vec<u8>,
    reader: &'x [u8],
    source: &'x [u8],
    reason: Reason,
) -> Result<(), OutOfMemory>
    ensures { OnOk result (text.new.items ≡ text.old.items ++ reason_text reader.now source.now reason) }
{
    let reader = Piece::Bytes(reader);
    let source = Piece::Bytes(source);
    let space = Piece::Plain(" ");
    let end = Piece::Plain("\n");
    match reason {
        Reason::Needless => {
            push_pieces(
                text,
                &[
                    Piece::Plain("nothing is to be done for it: work "),
                    reader,
                    end,
                ],
            )
        }
        Reason::PutOff { missing } => push_pieces(
            text,
            &[
                Piece::Plain("put off, since "),
                Piece::Key(missing),
                Piece::Plain(" has not come: resend "),
                reader,
                end,
            ],
        ),
        Reason::InFlight => push_pieces(text, &[Piece::Plain("in flight: work "), reader, end]),
        Reason::Letter => push_pieces(
            text,
            &[Piece::Plain("a letter: mergeletters "), reader, end],
        ),
        Reason::Unread => push_pieces(
            text,
            &[Piece::Plain("not read: pull "), reader, space, source, end],
        ),
        Reason::Lost => push_pieces(
            text,
            &[
                Piece::Plain("lost: rewind "),
                reader,
                space,
                source,
                Piece::Plain(", pull "),
                reader,
                space,
                source,
                Piece::Plain(", work "),
                reader,
                end,
            ],
        ),
    }
}

/// Appends how much of a queue is done.
pub(crate) fn push_done(text: &mut Vec<u8>, done: u64, count: u64) -> Result<(), OutOfMemory>
    ensures { OnOk result (text.new.items ≡ text.old.items ++ done_text done count) }
{
    push_number(text, done)?;
    text.extend_from_slice(b" of ")?;
    push_number(text, count)?;
    text.extend_from_slice(b" done")
}
