ghost use Rattle.ndc_event.specs.Outcome.{Gives};
ghost use Rattle.ndc_script_types.specs.declared.script.ScriptError.TheVariants.{Memory};
ghost use Rattle.std.specs.Prelude.{IfOk};
ghost use Rattle.ndc_script_read.specs.Body.{lines_read, script_of};
ghost use Rattle.ndc_script_types.specs.WellFormed.{IsWellFormedHeader, AreWellFormedLines, IsWellFormed};

use crate::body::body_of;
use ndc_script_types::{Header, Lines, Script, ScriptError};
use ndc_script_words::{Interner, header_of, kept_from, kept_of, line_after, line_behind};
use std::alloc::Global;

/// The script that bytes are.
#[tactic(auto, unfolding(crate::specs::Body::script_of))]
fn script_of(alloc: Global, bytes: &[u8]) -> Result<Script, ScriptError>
    ensures answer { Gives Memory (λ script. script) result (script_of bytes.now) }
    ensures header { IfOk result (λ script. IsWellFormedHeader script.header) }
    ensures lines { IfOk result (λ script. AreWellFormedLines script.header script.lines) }
{
    let end = line_after(bytes);
    let kept = kept_of(alloc, bytes)?;
    let read = header_of(alloc, end, kept.as_slice())?;
    let mut names = Interner::new(alloc)?;
    let lines = body_of(&mut names, read.header(), end, read.body())?;
    Ok(Script {
        header: read.into_header(),
        lines: Lines::new(lines),
    })
}

/// Reads a script. Refused with the number of the first faulty line, from 1, and its cause; a fault where
/// the text ends too early stands at the line after the last.
pub fn parse(alloc: Global, bytes: &[u8]) -> Result<Script, ScriptError>
    ensures answer { Gives Memory (λ script. script) result (script_of bytes.now) }
    ensures well_formed { IfOk result IsWellFormed }
{
    let script = script_of(alloc, bytes)?;
    Ok(script)
}

/// Reads lines of a script as they come, under a header that was read: one line, a whole burst from its line `burst` to
/// its line `end`, or several of these. The first line of the bytes has this number; lines that are skipped count, and
/// give nothing. Refused as [`parse`] refuses the same lines after the header, with the number of the first faulty line
/// and its cause: a burst without its line `end` at the line after the last of the bytes, and the line 100,001 in any
/// case.
///
/// What `parse` reads of a text is what it reads of a prefix of it with the header, and these lines of the rest, piece
/// by piece.
pub fn read_lines(
    alloc: Global,
    header: &Header,
    first: u64,
    bytes: &[u8],
) -> Result<Lines, ScriptError>
    requires { IsWellFormedHeader header.now }
    ensures answer { Gives Memory (λ lines. lines) result (lines_read header.now first bytes.now) }
    ensures well_formed { IfOk result (λ lines. AreWellFormedLines header.now lines) }
{
    let kept = kept_from(alloc, first, bytes)?;
    let mut names = Interner::keeping_none(alloc);
    let lines = body_of(
        &mut names,
        header,
        line_behind(first, bytes),
        kept.as_slice(),
    )?;
    Ok(Lines::new(lines))
}
