//! Pieces of a line.
ghost use Rattle.std.specs.Prelude.{◌≡◌, ◌++◌, ◌∷◌, [], codes, decimal, map, OnOk};
ghost use Rattle.std.specs.List.{concat};
ghost use Rattle.ndc_event.specs.Key.{run_text};
ghost use Rattle.ndc_text.specs.Views.{key_text};
ghost use Rattle.ndc_explain.specs.Pieces.{behind_space, by_text, carrier_text, escaped, escaped_by_text, escaped_text, piece_text, shared_text, span_text};

use crate::summary::Summary;
use ndc_event::{BatchKey, OutOfMemory, RunId};
use ndc_history::Item;
use ndc_text::line::{push_item, push_key, push_number};

/// A piece of a line.
#[derive(Clone, Copy)]
pub enum Piece<'a> {
    /// Fixed words.
    Plain(&'static str),
    /// Bytes as they are.
    Bytes(&'a [u8]),
    /// A number in decimal.
    Number(u64),
    /// `VERSION.TASK`.
    Key(BatchKey),
    /// `ID@VERSION`.
    Event(Item),
    /// The last event that two branches share.
    Shared(Option<Item>),
    /// ` by` and the name of a writer; nothing where the name is empty.
    Writer(&'a [u8]),
    /// A name after a space; nothing where the name is empty.
    Name(&'a [u8]),
    /// A name as it stands in an XML document.
    Escaped(&'a [u8]),
    /// ` by` and the name of a writer as it stands in an XML document; nothing where the name is empty.
    EscapedWriter(&'a [u8]),
    /// The id of a run.
    Run(RunId),
    /// From which batch to which a block goes.
    Span(Summary),
    /// The batch that a run continues; nothing where there is none.
    Carrier(Option<BatchKey>),
}

/// Appends ` by` and a name, where it is not empty.
fn push_writer(text: &mut Vec<u8>, name: &[u8]) -> Result<(), OutOfMemory>
    ensures { OnOk result (text.new.items ≡ text.old.items ++ by_text name.now) }
{
    match name {
        [] => Ok(()),
        [..] => {
            text.extend_from_slice(b" by ")?;
            text.extend_from_slice(name)
        }
    }
}

/// Appends a name after a space, where it is not empty.
fn push_name(text: &mut Vec<u8>, name: &[u8]) -> Result<(), OutOfMemory>
    ensures { OnOk result (text.new.items ≡ text.old.items ++ behind_space name.now) }
{
    match name {
        [] => Ok(()),
        [..] => {
            text.extend_from_slice(b" ")?;
            text.extend_from_slice(name)
        }
    }
}

/// Appends what two branches share.
fn push_shared(text: &mut Vec<u8>, shared: Option<Item>) -> Result<(), OutOfMemory>
    ensures { OnOk result (text.new.items ≡ text.old.items ++ shared_text shared) }
{
    match shared {
        None => text.extend_from_slice(b"they share no event"),
        Some(item) => {
            text.extend_from_slice(b"the last event that both share is ")?;
            push_item(text, item)?;
            Ok(())
        }
    }
}

/// Appends a byte of a name as it stands in an XML document.
fn push_escaped_byte(text: &mut Vec<u8>, byte: u8) -> Result<(), OutOfMemory>
    ensures { OnOk result (text.new.items ≡ text.old.items ++ escaped byte) }
{
    if byte == 38 {
        text.extend_from_slice(b"&amp;")
    } else if byte == 60 {
        text.extend_from_slice(b"&lt;")
    } else if byte == 62 {
        text.extend_from_slice(b"&gt;")
    } else {
        text.push(byte)?;
        Ok(())
    }
}

/// Appends a name as it stands in an XML document.
fn push_escaped(text: &mut Vec<u8>, bytes: &[u8]) -> Result<(), OutOfMemory>
    ensures { OnOk result (text.new.items ≡ text.old.items ++ escaped_text bytes.now) }
{
    for byte in bytes {
        push_escaped_byte(text, *byte)?;
    }
    Ok(())
}

/// Appends ` by` and a name as it stands in an XML document, where it is not empty.
fn push_escaped_writer(text: &mut Vec<u8>, name: &[u8]) -> Result<(), OutOfMemory>
    ensures { OnOk result (text.new.items ≡ text.old.items ++ escaped_by_text name.now) }
{
    match name {
        [] => Ok(()),
        [..] => {
            text.extend_from_slice(b" by ")?;
            push_escaped(text, name)
        }
    }
}

/// Appends the id of a run.
fn push_run_id(text: &mut Vec<u8>, run: RunId) -> Result<(), OutOfMemory>
    ensures { OnOk result (text.new.items ≡ text.old.items ++ run_text run) }
{
    let alloc = *text.allocator();
    text.extend_from_slice(run.text(alloc)?.as_bytes())
}

/// Appends from which batch to which a block of several goes.
fn push_several(text: &mut Vec<u8>, summary: Summary) -> Result<(), OutOfMemory>
    ensures { OnOk result (text.new.items ≡ text.old.items
        ++ concat (key_text summary.first ∷ codes " to " ∷ key_text summary.last ∷ codes ", "
        ∷ decimal summary.count ∷ codes " batches" ∷ [])) }
{
    push_key(text, summary.first)?;
    text.extend_from_slice(b" to ")?;
    push_key(text, summary.last)?;
    text.extend_from_slice(b", ")?;
    push_number(text, summary.count)?;
    text.extend_from_slice(b" batches")
}

/// Appends from which batch to which a block goes.
fn push_span(text: &mut Vec<u8>, summary: Summary) -> Result<(), OutOfMemory>
    ensures { OnOk result (text.new.items ≡ text.old.items ++ span_text summary) }
{
    if summary.count == 1 {
        push_key(text, summary.first)
    } else {
        push_several(text, summary)
    }
}

/// Appends the batch that a run continues, where there is one.
fn push_carrier(text: &mut Vec<u8>, carrier: Option<BatchKey>) -> Result<(), OutOfMemory>
    ensures { OnOk result (text.new.items ≡ text.old.items ++ carrier_text carrier) }
{
    match carrier {
        None => Ok(()),
        Some(key) => {
            text.extend_from_slice(b" continues ")?;
            push_key(text, key)
        }
    }
}

/// Appends a piece.
fn push_piece(text: &mut Vec<u8>, piece: Piece) -> Result<(), OutOfMemory>
    ensures { OnOk result (text.new.items ≡ text.old.items ++ piece_text piece.entry) }
{
    match piece {
        Piece::Plain(words) => text.extend_from_slice(words.as_bytes()),
        Piece::Bytes(bytes) => text.extend_from_slice(bytes),
        Piece::Number(number) => push_number(text, number),
        Piece::Key(key) => push_key(text, key),
        Piece::Event(item) => push_item(text, item),
        Piece::Shared(item) => push_shared(text, item),
        Piece::Writer(name) => push_writer(text, name),
        Piece::Name(name) => push_name(text, name),
        Piece::Escaped(bytes) => push_escaped(text, bytes),
        Piece::EscapedWriter(name) => push_escaped_writer(text, name),
        Piece::Run(run) => push_run_id(text, run),
        Piece::Span(summary) => push_span(text, summary),
        Piece::Carrier(carrier) => push_carrier(text, carrier),
    }
}

/// Appends pieces one after the other.
pub fn push_pieces(text: &mut Vec<u8>, pieces: &[Piece]) -> Result<(), OutOfMemory>
    ensures { OnOk result (text.new.items ≡ text.old.items ++ concat (map piece_text pieces.now)) }
{
    for piece in pieces {
        push_piece(text, *piece)?;
    }
    Ok(())
}
