//! Pieces of a line.
ghost use Rattle.std.specs.Prelude.{◌≡◌, ◌++◌, map, OnOk};
ghost use Rattle.std.specs.List.{concat};
ghost use Rattle.ndc_probe.specs.Pieces.{piece_text};
ghost use Rattle.ndc_probe.specs.declared.piece.Piece.TheVariants.{Carried};

use ndc_event::{BatchKey, OutOfMemory};
use ndc_text::line::{push_key, push_number};

/// A piece of a line.
#[derive(Clone, Copy)]
pub(crate) enum Piece<'a> {
    /// Fixed words.
    Plain(&'static str),
    /// Bytes as they are.
    Bytes(&'a [u8]),
    /// A number in decimal.
    Number(u64),
    /// `VERSION.TASK`.
    Key(BatchKey),
    /// The key of a batch that is carried; nothing where there is none.
    Carried(Option<BatchKey>),
}

/// Appends the key of a batch that is carried.
fn push_carried(text: &mut Vec<u8>, carried: Option<BatchKey>) -> Result<(), OutOfMemory>
    ensures { OnOk result (text.new.items ≡ text.old.items ++ piece_text (Carried carried)) }
{
    match carried {
        Some(key) => {
            text.extend_from_slice(b" with ")?;
            push_key(text, key)
        }
        None => Ok(()),
    }
}

/// Appends a piece.
fn push_piece(text: &mut Vec<u8>, piece: Piece) -> Result<(), OutOfMemory>
    ensures { OnOk result (text.new.items ≡ text.old.items ++ piece_text piece.entry) }
{
    match piece {
        Piece::Plain(words) => text.extend_from_slice(words.as_bytes()),
        Piece::Bytes(bytes) => text.extend_from_slice(bytes),
        Piece::Number(number) => push_number(text, number),
        Piece::Key(key) => push_key(text, key),
        Piece::Carried(carried) => push_carried(text, carried),
    }
}

/// Appends pieces.
pub(crate) fn push_pieces(text: &mut Vec<u8>, pieces: &[Piece]) -> Result<(), OutOfMemory>
    ensures { OnOk result (text.new.items ≡ text.old.items ++ concat (map piece_text pieces.now)) }
{
    for piece in pieces {
        push_piece(text, *piece)?;
    }
    Ok(())
}
