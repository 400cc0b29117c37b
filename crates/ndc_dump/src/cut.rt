// Bytes cut into lines.
ghost use Rattle.std.specs.Prelude.{◌≡◌, ◌<◌, length, map, IfOk, IfSome, IfNone, [], ◌∷◌};
ghost use Rattle.ndc_dump.specs.Lines.{line_len, lines_of, without_end};

use ndc_event::OutOfMemory;
use std::alloc::Global;

/// How many bytes stand before the first line end.
fn end_of(bytes: &[u8]) -> usize
    ensures { result ≡ length (without_end bytes.now) }
{
    for (at, byte) in bytes.iter().enumerate() {
        if *byte == b'\n' {
            return at;
        }
    }
    bytes.len()
}

/// The length of the first line of a text, its line end included.
fn line_len(bytes: &[u8]) -> usize
    ensures { result ≡ line_len bytes.now }
{
    (end_of(bytes) + 1).min(bytes.len())
}

/// The first line of a text and what stands after it; nothing where the text is empty.
fn split_line(bytes: &[u8]) -> Option<(&[u8], &[u8])>
    ensures none { IfNone result (lines_of bytes.now ≡ []) }
    ensures some { IfSome result (λ parts.
        lines_of bytes.now ≡ parts.0.now ∷ lines_of parts.1.now) }
    ensures shorter { IfSome result (λ parts. length parts.1.now < length bytes.now) }
{
    if bytes.is_empty() {
        return None;
    }
    Some(bytes.split_at(line_len(bytes)))
}

/// The lines of a text, each with its line end, which the last one may lack.
pub(crate) fn lines_of(alloc: Global, bytes: &[u8]) -> Result<Vec<&[u8]>, OutOfMemory>
    ensures { IfOk result (λ lines. map (λ line. line.now) lines.items ≡ lines_of bytes.now) }
{
    let mut lines = Vec::new(alloc);
    let mut rest = bytes;
    while let Some((line, after)) = split_line(rest) {
        lines.push(line)?;
        rest = after;
    }
    Ok(lines)
}

/// A line without its line end.
pub(crate) fn without_end(line: &[u8]) -> &[u8]
    ensures { result.now ≡ without_end line.now }
{
    let (front, _) = line.split_at(end_of(line));
    front
}
