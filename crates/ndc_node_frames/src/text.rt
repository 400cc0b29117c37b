// Frames as text, both ways.
ghost use Rattle.std.specs.Prelude.{◌≡◌, ◌++◌, IfOk, OnOk, Ok};
ghost use Rattle.ndc_event.specs.Outcome.{Gives};
ghost use Rattle.ndc_node_frames.specs.declared.frame.Frame.{Frame as Sent};
ghost use Rattle.ndc_node_frames.specs.Frames.{body_onto, content_of, content_at, at_end, tail_shape, tail_value, tail_at, tail_seen, frame_text, frame_at, seen_of, FrameFits};
ghost use Rattle.ndc_node_shapes.specs.Read.{read_of};
ghost use Rattle.ndc_node_shapes.specs.Text.{onto, text_of};
ghost use Rattle.ndc_node_shapes.specs.declared.fault.Fault.TheVariants.{Memory};

use crate::body::{Entries, Poll, Served};
use crate::frame::{Body, Frame};
use crate::gap::AskedGap;
use crate::handover::Offer;
use crate::header::Header;
use crate::kind::{Kind, take_kind};
use crate::progress::Held;
use crate::sending::{Bootstrap, Recall, Recalled, Records};
use ndc_event::{Name, OutOfMemory};
use ndc_node_shapes::piece::{
    push_end, push_first, push_next, push_number, push_quoted, take_end, take_first, take_name,
    take_next, take_number,
};
use ndc_node_shapes::{Cause, Fault, Framed, skip_object};
use std::alloc::Global;

/// What follows the body of a frame.
#[derive(Drop)]
struct Tail {
    from: Name,
    header: Header,
    kind: Kind,
    to: Name,
}

/// Appends the text of a body.
fn push_body(text: &mut Vec<u8>, body: &Body) -> Result<(), OutOfMemory>
    ensures { OnOk result (text.new.items ≡ body_onto text.old.items body.now) }
{
    match body {
        Body::Poll(poll) => poll.push(text),
        Body::Entries(entries) => entries.push(text),
        Body::Records(records) => records.push(text),
        Body::Handover(offer) => offer.push(text),
        Body::Gap(gap) => gap.push(text),
        Body::Served(served) => served.push(text),
        Body::Bootstrap(piece) => piece.push(text),
        Body::Recall(recall) => recall.push(text),
        Body::Recalled(piece) => piece.push(text),
        Body::Progress(held) => held.push(text),
    }
}

/// Appends what follows the body.
fn push_tail(text: &mut Vec<u8>, frame: &Frame) -> Result<(), OutOfMemory>
    ensures { OnOk result (text.new.items ≡ onto tail_shape text.old.items (tail_value frame.now)) }
{
    push_next(text, "format")?;
    push_number(text, 1)?;
    push_next(text, "from")?;
    frame.from.push(text)?;
    push_next(text, "header")?;
    frame.header.push(text)?;
    push_next(text, "kind")?;
    push_quoted(text, frame.body.kind().name().as_bytes())?;
    push_next(text, "to")?;
    frame.to.push(text)?;
    push_end(text)
}

/// The text of a frame: one line of JSON without its newline, without spaces, the keys of each object ascending.
#[tactic(auto, using(crate::proofs::Whole::pushed))]
pub fn frame_text(alloc: Global, frame: &Frame) -> Result<Vec<u8>, OutOfMemory>
    ensures { IfOk result (λ text. text.items ≡ frame_text frame.now) }
{
    let mut text = Vec::new(alloc);
    push_first(&mut text, "body")?;
    push_body(&mut text, &frame.body)?;
    push_tail(&mut text, frame)?;
    Ok(text)
}

/// Takes a body of a kind.
fn take_body(alloc: Global, kind: Kind, left: &[u8]) -> Result<Body, Fault>
    ensures { Gives Memory content_of result (content_at kind left.now) }
{
    match kind {
        Kind::Poll => {
            let (body, _) = Poll::take(alloc, left)?;
            Ok(Body::Poll(body))
        }
        Kind::Entries => {
            let (body, _) = Entries::take(alloc, left)?;
            Ok(Body::Entries(body))
        }
        Kind::Records => {
            let (body, _) = Records::take(alloc, left)?;
            Ok(Body::Records(body))
        }
        Kind::Handover => {
            let (body, _) = Offer::take(alloc, left)?;
            Ok(Body::Handover(body))
        }
        Kind::Gap => {
            let (body, _) = AskedGap::take(alloc, left)?;
            Ok(Body::Gap(body))
        }
        Kind::Served => {
            let (body, _) = Served::take(alloc, left)?;
            Ok(Body::Served(body))
        }
        Kind::Bootstrap => {
            let (body, _) = Bootstrap::take(alloc, left)?;
            Ok(Body::Bootstrap(body))
        }
        Kind::Recall => {
            let (body, _) = Recall::take(alloc, left)?;
            Ok(Body::Recall(body))
        }
        Kind::Recalled => {
            let (body, _) = Recalled::take(alloc, left)?;
            Ok(Body::Recalled(body))
        }
        Kind::Progress => {
            let (body, _) = Held::take(alloc, left)?;
            Ok(Body::Progress(body))
        }
    }
}

/// Tests that nothing is left.
fn at_end(left: &[u8]) -> Result<(), Fault>
    ensures { Gives Memory (λ _. tt) result (at_end left.now) }
{
    if left.is_empty() {
        Ok(())
    } else {
        Err(Fault::At {
            cause: Cause::Unexpected,
            left: left.len(),
        })
    }
}

/// Takes what follows the body.
fn take_members(alloc: Global, left: &[u8]) -> Result<(Tail, &[u8]), Fault>
    ensures { Gives Memory (λ taken. (tail_seen taken.0, taken.1.now)) result
        (read_of tail_shape left.now) }
{
    let left = take_next(left, "format")?;
    let (_format, left) = take_number(left, 1, 1)?;
    let left = take_next(left, "from")?;
    let (from, left) = take_name(alloc, left)?;
    let left = take_next(left, "header")?;
    let (header, left) = Header::take(alloc, left)?;
    let left = take_next(left, "kind")?;
    let (kind, left) = take_kind(alloc, left)?;
    let left = take_next(left, "to")?;
    let (to, left) = take_name(alloc, left)?;
    let left = take_end(left)?;
    Ok((
        Tail {
            from,
            header,
            kind,
            to,
        },
        left,
    ))
}

/// Takes what follows the body, up to the end.
fn take_tail(alloc: Global, left: &[u8]) -> Result<Tail, Fault>
    ensures { Gives Memory tail_seen result (tail_at left.now) }
{
    let (tail, left) = take_members(alloc, left)?;
    at_end(left)?;
    Ok(tail)
}

/// The frame that a text is: the body is passed over, and read once the kind is known.
#[tactic(auto, unfolding(crate::specs::Frames::frame_at), using(crate::proofs::KindNames::kind_again))]
fn take_frame(alloc: Global, bytes: &[u8]) -> Result<Frame, Fault>
    ensures { Gives Memory seen_of result (frame_at bytes.now) }
{
    let left = take_first(bytes, "body")?;
    let rest = skip_object(left)?;
    let tail = take_tail(alloc, rest)?;
    let body = take_body(alloc, tail.kind, left)?;
    let Tail {
        from,
        header,
        to,
        ..
    } = tail;
    Ok(Frame {
        from,
        to,
        header,
        body,
    })
}

/// Reads the text of a frame. It answers the frame exactly where the frame fits and the bytes are what [`frame_text`]
/// writes of it.
///
/// A fault tells what is wrong, and how many bytes there are up to the end from there, the first on this way through the
/// text: the body, as an object that is closed; what follows it, member by member, up to the end; then the body, member by
/// member, as its kind has it. [`Cause::Unexpected`] where another bracket, comma, key, quote or word is wanted, or the text
/// goes on; [`Cause::Number`], [`Cause::Byte`] and [`Cause::Range`] where a value is none, or out of its range, or there is
/// no such kind.
#[tactic(auto, using(crate::proofs::FrameLaws::frame_only, crate::proofs::BackToFrames::only_frame))]
pub fn read_frame(alloc: Global, bytes: &[u8]) -> Result<Frame, Fault>
    ensures gives { Gives Memory seen_of result (frame_at bytes.now) }
    ensures found { IfOk result (λ frame. FrameFits frame × (bytes.now ≡ frame_text frame)) }
    ensures only { (frame : Sent) → FrameFits frame → bytes.now ≡ frame_text frame
        → Gives Memory (λ read. read) result (Ok frame) }
{
    take_frame(alloc, bytes)
}
