use crate::words::split_word;
use ndc_script_words::number_of;

/// The parts of what is kept of a node: a store, and what was appended to it.
#[derive(Drop)]
pub(crate) struct Kept<'a> {
    /// The header's lines.
    pub(crate) header: &'a [u8],
    /// The node's name.
    pub(crate) name: &'a [u8],
    /// How many units were done before the store was made.
    pub(crate) units: u64,
    /// The text of the node.
    pub(crate) node: &'a [u8],
    /// What stands after it.
    pub(crate) appended: &'a [u8],
}

/// The first line, without its end, and what follows it. None where no line ends.
pub(crate) fn split_line(text: &[u8]) -> Option<(&[u8], &[u8])> {
    let place = text.iter().position(|byte| *byte == b'\n')?;
    let (line, rest) = text.split_at(place);
    match rest {
        [_, after @ ..] => Some((line, after)),
        [] => None,
    }
}

/// The lines before `node NAME`, the name, and what follows. None where there is no such line.
fn split_header(text: &[u8]) -> Option<(&[u8], &[u8], &[u8])> {
    let mut rest = text;
    for _line in 0..text.len() {
        let (line, after) = split_line(rest)?;
        if let Some(name) = line.strip_prefix(b"node ") {
            let (header, _) = text.split_at(text.len().saturating_sub(rest.len()));
            return Some((header, name, after));
        }
        rest = after;
    }
    None
}

/// The parts of what is kept. None where the store is not whole.
pub(crate) fn split_kept(text: &[u8]) -> Option<Kept<'_>> {
    let (header, name, rest) = split_header(text)?;
    let (line, rest) = split_line(rest)?;
    let (units, len) = split_word(line.strip_prefix(b"store ")?);
    let units = number_of(units)?;
    let len = number_of(len)? as usize;
    if rest.len() < len {
        return None;
    }
    let (node, appended) = rest.split_at(len);
    Some(Kept {
        header,
        name,
        units,
        node,
        appended,
    })
}

/// What stands first in what was appended.
#[derive(Drop)]
pub(crate) enum Appended<'a> {
    /// A whole unit: its line, and what follows.
    Unit { line: &'a [u8], rest: &'a [u8] },
    /// Less than a unit.
    Part,
    /// Another unit than the next one, or none.
    Wrong,
}

/// Whether a line is a word and this number.
fn is_numbered(line: &[u8], word: &[u8], number: u64) -> bool {
    let (first, rest) = split_word(line);
    first == word && number_of(rest) == Some(number)
}

/// What stands first where the unit of this number is the next one.
pub(crate) fn next_unit(text: &[u8], number: u64) -> Appended<'_> {
    let Some((head, rest)) = split_line(text) else {
        return Appended::Part;
    };
    if !is_numbered(head, b"unit", number) {
        return Appended::Wrong;
    }
    let Some((line, rest)) = split_line(rest) else {
        return Appended::Part;
    };
    match split_line(rest) {
        None => Appended::Part,
        Some((end, rest)) if is_numbered(end, b"end", number) => Appended::Unit { line, rest },
        Some(_) => Appended::Wrong,
    }
}

/// How many lines end in a text.
pub(crate) fn count_lines(text: &[u8]) -> u64 {
    let mut count: u64 = 0;
    for byte in text {
        if *byte == b'\n' {
            count = count.saturating_add(1);
        }
    }
    count
}
