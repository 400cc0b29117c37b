/// The first line of a text, without its end, and what comes after it. None where no line ends.
pub fn split_line(text: &[u8]) -> Option<(&[u8], &[u8])> {
    let place = text.iter().position(|byte| *byte == b'\n')?;
    let (line, after) = text.split_at(place);
    match after {
        [_, rest @ ..] => Some((line, rest)),
        [] => None,
    }
}
