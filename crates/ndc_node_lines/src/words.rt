use ndc_event::OutOfMemory;
use std::alloc::Global;

/// The first word of a line, and what stands after the space that follows it.
pub(crate) fn split_word(line: &[u8]) -> (&[u8], &[u8]) {
    match line.iter().position(|byte| *byte == b' ') {
        None => (line, &[]),
        Some(place) => {
            let (word, rest) = line.split_at(place);
            match rest {
                [_, after @ ..] => (word, after),
                [] => (word, rest),
            }
        }
    }
}

/// A line of a script: with a cluster's name after its first word.
pub(crate) fn with_cluster(
    alloc: Global,
    word: &[u8],
    rest: &[u8],
    cluster: &[u8],
) -> Result<Vec<u8>, OutOfMemory> {
    let mut text = Vec::new(alloc);
    text.extend_from_slice(word)?;
    text.extend_from_slice(b" ")?;
    text.extend_from_slice(cluster)?;
    text.extend_from_slice(b" ")?;
    text.extend_from_slice(rest)?;
    text.extend_from_slice(b"\n")?;
    Ok(text)
}

/// Whether there is the end of a line in these bytes.
pub(crate) fn has_line_end(bytes: &[u8]) -> bool {
    bytes.iter().any(|byte| *byte == b'\n')
}

/// The first words of lines that change nothing.
const READING: [&[u8]; 12] = [
    b"ask",
    b"branches",
    b"current",
    b"domain",
    b"dump",
    b"gaps",
    b"history",
    b"letters",
    b"members",
    b"progress",
    b"state",
    b"status",
];

/// Whether lines with this first word may change the node that they are given to.
pub(crate) fn word_may_change(word: &[u8]) -> bool {
    !READING.iter().any(|one| *one == word)
}

/// Whether a line may change the node that it is given to.
pub fn may_change(line: &[u8]) -> bool {
    let (word, _) = split_word(line);
    word_may_change(word)
}
