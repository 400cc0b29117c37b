ghost use Rattle.std.specs.Prelude.{◌≡◌, ◌==◌, map, IfOk};
ghost use Rattle.std.specs.List.{slice_split};
ghost use Rattle.ndc_probe_questions.specs.Finding.{asked_on, questions_in};

use ndc_event::OutOfMemory;
use ndc_script_words::{KeptLine, kept_from};
use std::alloc::Global;

/// The lines of a text.
fn lines_of<'a>(alloc: Global, bytes: &'a [u8]) -> Result<Vec<&'a [u8]>, OutOfMemory>
    ensures { IfOk result (λ lines.
        map (λ line. line.now) lines.items ≡ slice_split (λ byte. byte == 10) bytes.now) }
{
    bytes.split(|byte| *byte == b'\n').collect(alloc)
}

/// What a line of this number asks: nothing, where it does not begin with `#?` or has no word after that.
fn asked_on<'a>(
    alloc: Global,
    number: u64,
    line: &'a [u8],
) -> Result<Vec<KeptLine<'a>>, OutOfMemory>
    ensures { IfOk result (λ asked. asked.items ≡ asked_on number line.now) }
{
    let [first, second, words @ ..] = line else {
        return Ok(Vec::new(alloc));
    };
    if *first == b'#' && *second == b'?' {
        kept_from(alloc, number, words)
    } else {
        Ok(Vec::new(alloc))
    }
}

/// The questions in a script's text: the words after `#?` of each line that begins so, with the line's number, from 1.
pub fn questions_in<'a>(alloc: Global, bytes: &'a [u8]) -> Result<Vec<KeptLine<'a>>, OutOfMemory>
    ensures { IfOk result (λ asked. asked.items ≡ questions_in bytes.now) }
{
    let lines = lines_of(alloc, bytes)?;
    let mut asked = Vec::new(alloc);
    let mut number = 0;
    for line in lines.as_slice() {
        number += 1;
        let mut more = asked_on(alloc, number, line)?;
        asked.append(&mut more)?;
    }
    Ok(asked)
}
