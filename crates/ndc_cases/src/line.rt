//! A line of a transcript: its first word, which tells what it is, and the text after it.
ghost use Rattle.std.specs.Prelude.{◌≡◌, ◌≤◌, take, length};
ghost use Rattle.ndc_cases.specs.Line.{mark_len, mark_of, text_of};

/// What a line of a transcript gives.
#[derive(Clone, Copy, Debug, PartialEq, Eq)]
pub enum Mark {
    Comment,
    Name,
    Words,
    Input,
    LastInput,
    HexInput,
    ManyInput,
    Output,
    LastOutput,
    Told,
    Status,
}

/// The length of a line's first word.
fn mark_len(line: &[u8]) -> usize
    ensures answer { result ≡ mark_len line.now }
    ensures within { result ≤ length line.now }
{
    for (at, byte) in line.iter().enumerate() {
        if *byte == b' ' {
            return at;
        }
    }
    line.len()
}

/// A line's first word and what stands after the space after it.
pub fn parts_of(line: &[u8]) -> (&[u8], &[u8])
    ensures mark { result.0.now ≡ take (mark_len line.now) line.now }
    ensures text { result.1.now ≡ text_of line.now }
{
    let (mark, behind) = line.split_at(mark_len(line));
    match behind {
        [] => (mark, behind),
        [_, text @ ..] => (mark, text),
    }
}

/// What a line with this first word gives.
#[tactic(auto, unfolding(crate::specs::Line::mark_of))]
pub fn mark_of(word: &[u8]) -> Option<Mark>
    ensures { result ≡ mark_of word.now }
{
    if word == b"#".as_slice() {
        Some(Mark::Comment)
    } else if word == b"==".as_slice() {
        Some(Mark::Name)
    } else if word == b"$".as_slice() {
        Some(Mark::Words)
    } else if word == b">".as_slice() {
        Some(Mark::Input)
    } else if word == b">-".as_slice() {
        Some(Mark::LastInput)
    } else if word == b">x".as_slice() {
        Some(Mark::HexInput)
    } else if word == b">*".as_slice() {
        Some(Mark::ManyInput)
    } else if word == b"<".as_slice() {
        Some(Mark::Output)
    } else if word == b"<-".as_slice() {
        Some(Mark::LastOutput)
    } else if word == b"!".as_slice() {
        Some(Mark::Told)
    } else if word == b"?".as_slice() {
        Some(Mark::Status)
    } else {
        None
    }
}
