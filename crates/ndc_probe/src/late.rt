//! What is told of members that came late.
ghost use Rattle.std.specs.Prelude.{◌≡◌, ◌++◌, OnOk};
ghost use Rattle.ndc_probe.specs.Late.{late_line, late_lines, late_text};

use crate::piece::{Piece, push_pieces};
use ndc_event::{Name, OutOfMemory};
use ndc_text::line::push_number;

/// Appends the line on a domain in which a reader is late at a source; these by their names.
#[tactic(auto, unfolding(crate::specs::Late::late_line))]
pub(crate) fn push_late_line<'x>(
    text: &mut Vec<u8>,
    reader: &'x [u8],
    source: &'x [u8],
    domain: &'x Name,
) -> Result<(), OutOfMemory>
    ensures { OnOk result (text.new.items ≡ text.old.items ++ late_line reader.now source.now domain.now) }
{
    push_pieces(
        text,
        &[
            Piece::Bytes(reader),
            Piece::Plain(" is late in "),
            Piece::Bytes(domain.as_bytes()),
            Piece::Plain(": bootstrap "),
            Piece::Bytes(reader),
            Piece::Plain(" "),
            Piece::Bytes(source),
            Piece::Plain("\n"),
        ],
    )
}

/// Appends a line for each of these domains.
pub(crate) fn push_late_lines(
    text: &mut Vec<u8>,
    reader: &[u8],
    source: &[u8],
    domains: &[Name],
) -> Result<(), OutOfMemory>
    ensures { OnOk result (text.new.items ≡ text.old.items ++ late_lines reader.now source.now domains.now) }
{
    for domain in domains {
        push_late_line(text, reader, source, domain)?;
    }
    Ok(())
}

/// Appends the domains in which a reader is late at a source.
pub(crate) fn push_late(
    text: &mut Vec<u8>,
    reader: &[u8],
    source: &[u8],
    domains: &[Name],
) -> Result<(), OutOfMemory>
    ensures { OnOk result (text.new.items ≡ text.old.items ++ late_text reader.now source.now domains.now) }
{
    push_number(text, domains.len() as u64)?;
    text.extend_from_slice(b" late\n")?;
    push_late_lines(text, reader, source, domains)
}
