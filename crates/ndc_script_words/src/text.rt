ghost use Rattle.std.specs.Prelude.{◌≡◌, ◌<◌, ◌≤◌, length, map, IfOk, IfSome, IfNone, [], ◌∷◌};
ghost use Rattle.std.specs.List.{list_all};
ghost use Rattle.ndc_script_words.specs.Text.{text_lines, line_len, words_of, is_line_byte, is_short, is_comment, is_skipped, kept_line, kept_from, kept_of, line_behind, line_after};

use memchr::memchr;
use ndc_event::OutOfMemory;
use std::alloc::Global;
use std::marker::Model;

/// The greatest number of lines that a script may have.
pub const MAX_LINES: u64 = 100_000;

/// The greatest length of a word of a script, in bytes.
pub const MAX_WORD: usize = 200;

/// Whether a line can be read.
#[derive(Clone, Copy, Debug, PartialEq, Eq)]
pub enum Reading {
    Readable,
    /// It has a byte that no line may have, or a word that is too long.
    Unreadable,
    /// It stands after the last line that a script may have.
    PastLimit,
}

/// For how many words of a line memory is asked for at once: most lines have no more.
const WORDS: usize = 6;

/// A line that is not skipped, with its words.
#[derive(Drop)]
pub struct KeptLine<'a> {
    number: u64,
    reading: Reading,
    words: Vec<&'a [u8]>,
}

impl<'a> Model for KeptLine<'a> {
    ghost use Rattle.std.specs.Prelude.{map};
    ghost use Rattle.ndc_script_words.specs.Text.{KeptLine};

    ghost Value = { KeptLine };

    ghost view = { λ line. record {
      number = line.number;
      reading = line.reading;
      words = map (λ word. word.now) line.words.items;
    } };
}

impl<'a> KeptLine<'a> {
    ghost use Rattle.std.specs.Prelude.{◌≡◌, map};

    /// The line's number, from 1.
    pub fn number(&self) -> u64
        ensures { result ≡ self.now.number }
    {
        self.number
    }

    /// Whether it can be read.
    pub fn reading(&self) -> Reading
        ensures { result ≡ self.now.reading }
    {
        self.reading
    }

    /// Its words.
    pub fn words(&self) -> &[&'a [u8]]
        ensures { map (λ word. word.now) result.now ≡ self.now.words }
    {
        self.words.as_slice()
    }
}

/// The length of the first line of a text.
fn line_len(bytes: &[u8]) -> usize
    ensures { result ≡ line_len bytes.now }
{
    match memchr(b'\n', bytes) {
        Some(at) => at,
        None => bytes.len(),
    }
}

/// The first line of a text and what stands after it; nothing where the text is empty.
fn split_line(bytes: &[u8]) -> Option<(&[u8], &[u8])>
    ensures none { IfNone result (text_lines bytes.now ≡ []) }
    ensures some { IfSome result (λ parts.
        text_lines bytes.now ≡ parts.0.now ∷ text_lines parts.1.now) }
    ensures shorter { IfSome result (λ parts. length parts.1.now < length bytes.now) }
{
    if bytes.is_empty() {
        return None;
    }
    let (line, rest) = bytes.split_at(line_len(bytes));
    match rest {
        [_, after @ ..] => Some((line, after)),
        [] => Some((line, rest)),
    }
}

/// The words of a line.
fn words_of<'a>(alloc: Global, line: &'a [u8]) -> Result<Vec<&'a [u8]>, OutOfMemory>
    ensures { IfOk result (λ words. map (λ word. word.now) words.items ≡ words_of line.now) }
{
    let mut words = Vec::with_capacity(alloc, WORDS)?;
    words.extend(
        line.split(|byte| *byte == b' ')
            .filter(|word| !word.is_empty()),
    )?;
    Ok(words)
}

/// Whether the line has allowed bytes alone.
fn are_line_bytes(line: &[u8]) -> bool
    ensures { result ≡ list_all is_line_byte line.now }
{
    line.iter().all(|byte| 32 <= *byte && *byte <= 126)
}

/// Whether no word is too long.
fn are_short(words: &[&[u8]]) -> bool
    ensures { result ≡ list_all is_short (map (λ word. word.now) words.now) }
{
    for word in words {
        if word.len() > MAX_WORD {
            return false;
        }
    }
    true
}

/// Whether a line of these words is skipped.
fn is_skipped(words: &[&[u8]]) -> bool
    ensures { result ≡ is_skipped (map (λ word. word.now) words.now) }
{
    match words {
        [] => true,
        [word, ..] => is_comment(word),
    }
}

/// Whether the word begins a comment.
fn is_comment(word: &[u8]) -> bool
    ensures { result ≡ is_comment word.now }
{
    match word {
        [] => false,
        [byte, ..] => *byte == b'#',
    }
}

/// What is kept of a line.
fn kept_line<'a>(
    alloc: Global,
    number: u64,
    line: &'a [u8],
) -> Result<Option<KeptLine<'a>>, OutOfMemory>
    ensures { IfOk result (λ kept. kept ≡ kept_line number line.now) }
{
    let words = words_of(alloc, line)?;
    if !are_line_bytes(line) {
        return Ok(Some(KeptLine {
            number,
            reading: Reading::Unreadable,
            words,
        }));
    }
    if is_skipped(words.as_slice()) {
        return Ok(None);
    }
    let reading = if are_short(words.as_slice()) {
        Reading::Readable
    } else {
        Reading::Unreadable
    };
    Ok(Some(KeptLine {
        number,
        reading,
        words,
    }))
}

/// The lines that are not skipped, where the first line has this number: up to the limit and the first past it.
pub fn kept_from<'a>(
    alloc: Global,
    first: u64,
    bytes: &'a [u8],
) -> Result<Vec<KeptLine<'a>>, OutOfMemory>
    ensures { IfOk result (λ kept. kept.items ≡ kept_from first (text_lines bytes.now)) }
{
    let mut kept = Vec::new(alloc);
    let mut number = first;
    let mut rest = bytes;
    while let Some((line, after)) = split_line(rest) {
        if number > MAX_LINES {
            kept.push(KeptLine {
                number,
                reading: Reading::PastLimit,
                words: Vec::new(alloc),
            })?;
            return Ok(kept);
        }
        if let Some(line) = kept_line(alloc, number, line)? {
            kept.push(line)?;
        }
        number += 1;
        rest = after;
    }
    Ok(kept)
}

/// The lines of a text that are not skipped, up to the limit and the first past it.
pub fn kept_of<'a>(alloc: Global, bytes: &'a [u8]) -> Result<Vec<KeptLine<'a>>, OutOfMemory>
    ensures { IfOk result (λ kept. kept.items ≡ kept_of bytes.now) }
{
    kept_from(alloc, 1, bytes)
}

/// How many lines a text has.
fn line_count(bytes: &[u8]) -> u64
    ensures count { result ≡ length (text_lines bytes.now) }
    ensures most { result ≤ length bytes.now }
{
    let mut count = 0;
    let mut rest = bytes;
    while let Some((_, after)) = split_line(rest) {
        count += 1;
        rest = after;
    }
    count
}

/// The number of the line after the last, where the first line has this number.
pub fn line_behind(first: u64, bytes: &[u8]) -> u64
    ensures { first ≤ 100000 → result ≡ line_behind first bytes.now }
{
    first.saturating_add(line_count(bytes))
}

/// The number of the line after the last.
pub fn line_after(bytes: &[u8]) -> u64
    ensures { result ≡ line_after bytes.now }
{
    line_count(bytes) + 1
}
