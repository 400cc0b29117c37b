//! The pieces of a text: each is pushed at the end of a text, or taken from the bytes that are left.
ghost use Rattle.std.specs.Prelude.{◌≡◌, ◌+◌, ◌^◌, ◌<◌, ◌≤◌, ◌++◌, ◌∷◌, [], ℕ, true, false, codes, decimal, drop, length, option_map, IfOk, IfSome, OnOk};
ghost use Rattle.ndc_event.specs.Outcome.{Gives};
ghost use Rattle.ndc_event.specs.Key.{run_text};
ghost use Rattle.ndc_node_shapes.specs.Bytes.{after, expect, wanted, is_digit, digits_of, has_leading_zero, is_number, value_on, number_in, number_at, is_plain, is_marked, escaped, quoted, unquoted, text_at, name_at, first_key, next_key, flag_text, flag_at, run_from, run_of_value, run_at};
ghost use Rattle.ndc_node_shapes.specs.Ranges.{is_run};
ghost use Rattle.std.specs.List.{list_all};
ghost use Rattle.uuid.specs.Text.{parsed};
ghost use Rattle.ndc_node_shapes.specs.declared.fault.Cause.TheVariants.{Unexpected};
ghost use Rattle.ndc_node_shapes.specs.declared.fault.Fault.TheVariants.{Memory};

use crate::fault::{Cause, Fault};
use ndc_event::{Name, NameError, OutOfMemory, RunId};
use std::alloc::Global;
use uuid::Uuid;

/// The greatest event id and task.
pub const MAX_ID: u64 = 1_000_000_000_000;
/// The greatest version.
pub const MAX_VERSION: u64 = 10_000_000_000_000;
/// The greatest number of digits.
const MAX_DIGITS: usize = 18;

/// What comes after the piece, where the bytes begin with it.
pub fn after<'b>(left: &'b [u8], piece: &[u8]) -> Option<&'b [u8]>
    ensures { option_map (λ rest. rest.now) result ≡ after piece.now left.now }
{
    left.strip_prefix(piece)
}

/// Takes a piece that is wanted.
pub fn expect<'b>(left: &'b [u8], piece: &[u8]) -> Result<&'b [u8], Fault>
    ensures { Gives Memory (λ rest. rest.now) result (expect piece.now left.now) }
{
    match after(left, piece) {
        Some(rest) => Ok(rest),
        None => Err(Fault::At {
            cause: Cause::Unexpected,
            left: left.len(),
        }),
    }
}

/// Appends what an object begins with, up to its first member's value.
pub fn push_first(text: &mut Vec<u8>, key: &str) -> Result<(), OutOfMemory>
    ensures { OnOk result (text.new.items ≡ text.old.items ++ first_key key.now) }
{
    text.extend_from_slice(b"{\"")?;
    text.extend_from_slice(key.as_bytes())?;
    text.extend_from_slice(b"\":")
}

/// Appends a further key of an object.
pub fn push_next(text: &mut Vec<u8>, key: &str) -> Result<(), OutOfMemory>
    ensures { OnOk result (text.new.items ≡ text.old.items ++ next_key key.now) }
{
    text.extend_from_slice(b",\"")?;
    text.extend_from_slice(key.as_bytes())?;
    text.extend_from_slice(b"\":")
}

/// Appends what an object ends with.
pub fn push_end(text: &mut Vec<u8>) -> Result<(), OutOfMemory>
    ensures { OnOk result (text.new.items ≡ text.old.items ++ 125 ∷ []) }
{
    text.push(b'}')?;
    Ok(())
}

/// Takes a piece, the key and what stands after a key.
fn take_keyed<'b>(left: &'b [u8], piece: &[u8], key: &str) -> Option<&'b [u8]>
    ensures { option_map (λ rest. rest.now) result
        ≡ after (piece.now ++ key.now ++ codes "\":") left.now }
{
    let left = after(left, piece)?;
    let left = after(left, key.as_bytes())?;
    after(left, b"\":")
}

/// What is there, or else a fault where these bytes are left.
fn wanted<'b>(rest: Option<&'b [u8]>, left: &[u8]) -> Result<&'b [u8], Fault>
    ensures { Gives Memory (λ r. r.now) result
        (wanted Unexpected left.now (option_map (λ r. r.now) rest.entry)) }
{
    match rest {
        Some(rest) => Ok(rest),
        None => Err(Fault::At {
            cause: Cause::Unexpected,
            left: left.len(),
        }),
    }
}

/// Takes what an object begins with, up to its first member's value.
pub fn take_first<'b>(left: &'b [u8], key: &str) -> Result<&'b [u8], Fault>
    ensures { Gives Memory (λ rest. rest.now) result (expect (first_key key.now) left.now) }
{
    wanted(take_keyed(left, b"{\"", key), left)
}

/// Takes a further key of an object.
pub fn take_next<'b>(left: &'b [u8], key: &str) -> Result<&'b [u8], Fault>
    ensures { Gives Memory (λ rest. rest.now) result (expect (next_key key.now) left.now) }
{
    wanted(take_keyed(left, b",\"", key), left)
}

/// Takes what an object ends with.
pub fn take_end(left: &[u8]) -> Result<&[u8], Fault>
    ensures { Gives Memory (λ rest. rest.now) result (expect (125 ∷ []) left.now) }
{
    expect(left, b"}")
}

/// Whether a byte is a digit.
fn is_digit(byte: u8) -> bool
    ensures { result ≡ is_digit byte }
{
    48 <= byte && byte <= 57
}

/// How many digits the bytes begin with.
fn count_digits(left: &[u8]) -> usize
    ensures { result ≡ length (digits_of left.now) }
{
    let mut count = 0;
    while count < left.len() && is_digit(left[count]) {
        count += 1;
    }
    count
}

/// Whether a number begins with a 0 that it should not have.
fn has_leading_zero(digits: &[u8]) -> bool
    ensures { result ≡ has_leading_zero digits.now }
{
    match digits {
        [] => false,
        [byte, rest @ ..] => *byte == b'0' && !rest.is_empty(),
    }
}

/// Whether digits are 1 to 18, without a leading zero.
fn is_number(digits: &[u8]) -> bool
    ensures { result ≡ is_number digits.now }
{
    !digits.is_empty() && digits.len() <= MAX_DIGITS && !has_leading_zero(digits)
}

/// The value of at most 18 digits.
fn value_of(digits: &[u8]) -> u64
    requires digits { list_all is_digit digits.now ≡ true }
    requires short { length digits.now ≤ 18 }
    ensures { result ≡ value_on 0 digits.now }
{
    let mut value = 0;
    for byte in digits {
        value = value * 10 + u64::from(*byte - b'0');
    }
    value
}

/// The digits that the bytes begin with, and what comes after them.
fn split_digits(left: &[u8]) -> (&[u8], &[u8])
    ensures digits { result.0.now ≡ digits_of left.now }
    ensures rest { result.1.now ≡ drop (length (digits_of left.now)) left.now }
    ensures all { list_all is_digit result.0.now ≡ true }
{
    left.split_at(count_digits(left))
}

/// Takes a number from the least to the most.
pub fn take_number(left: &[u8], least: u64, most: u64) -> Result<(u64, &[u8]), Fault>
    ensures number { Gives Memory (λ taken. (taken.0, taken.1.now)) result
        (number_at least most left.now) }
    ensures range { IfOk result (λ taken. (least ≤ taken.0) × (taken.0 ≤ most)) }
{
    let (digits, rest) = split_digits(left);
    if !is_number(digits) {
        return Err(Fault::At {
            cause: Cause::Number,
            left: left.len(),
        });
    }
    let number = value_of(digits);
    if least <= number && number <= most {
        Ok((number, rest))
    } else {
        Err(Fault::At {
            cause: Cause::Range,
            left: left.len(),
        })
    }
}

/// Appends a number.
pub fn push_number(text: &mut Vec<u8>, number: u64) -> Result<(), OutOfMemory>
    ensures { OnOk result (text.new.items ≡ text.old.items ++ decimal number) }
{
    let mut buffer = itoa::Buffer::new();
    text.extend_from_slice(buffer.format(number).as_bytes())
}

/// Whether a byte has a backslash before it: a quote or a backslash.
fn is_marked(byte: u8) -> bool
    ensures { result ≡ is_marked byte }
{
    byte == b'"' || byte == b'\\'
}

/// Whether a quoted text may have this byte.
fn is_plain(byte: u8) -> bool
    ensures { result ≡ is_plain byte }
{
    32 <= byte && byte <= 126
}

/// Appends a byte of a quoted text.
fn push_byte(text: &mut Vec<u8>, byte: u8) -> Result<(), OutOfMemory>
    ensures { OnOk result (text.new.items ≡ text.old.items ++ escaped (byte ∷ [])) }
{
    if is_marked(byte) {
        text.push(b'\\')?;
    }
    text.push(byte)?;
    Ok(())
}

/// Appends bytes between quotes.
pub fn push_quoted(text: &mut Vec<u8>, bytes: &[u8]) -> Result<(), OutOfMemory>
    ensures { OnOk result (text.new.items ≡ text.old.items ++ quoted bytes.now) }
{
    text.push(b'"')?;
    for byte in bytes {
        push_byte(text, *byte)?;
    }
    text.push(b'"')?;
    Ok(())
}

/// Takes the bytes up to the closing quote.
fn take_unquoted(alloc: Global, left: &[u8]) -> Result<(Vec<u8>, &[u8]), Fault>
    ensures { Gives Memory (λ taken. (taken.0.items, taken.1.now)) result
        (unquoted false left.now) }
{
    let mut bytes = Vec::new(alloc);
    let mut marked = false;
    for place in 0..left.len() {
        let byte = left[place];
        if !marked && byte == b'"' {
            return Ok((bytes, &left[place + 1..]));
        }
        if !marked && byte == b'\\' {
            marked = true;
            continue;
        }
        if marked && !is_marked(byte) || !marked && !is_plain(byte) {
            return Err(Fault::At {
                cause: Cause::Byte,
                left: left.len() - place,
            });
        }
        bytes.push(byte)?;
        marked = false;
    }
    Err(Fault::At {
        cause: Cause::Unexpected,
        left: 0,
    })
}

/// Takes the bytes between quotes.
pub fn take_text(alloc: Global, left: &[u8]) -> Result<(Vec<u8>, &[u8]), Fault>
    ensures { Gives Memory (λ taken. (taken.0.items, taken.1.now)) result (text_at left.now) }
{
    let rest = expect(left, b"\"")?;
    take_unquoted(alloc, rest)
}

/// Takes a name between quotes.
pub fn take_name(alloc: Global, left: &[u8]) -> Result<(Name, &[u8]), Fault>
    ensures { Gives Memory (λ taken. (taken.0, taken.1.now)) result (name_at left.now) }
{
    let (bytes, rest) = take_text(alloc, left)?;
    match Name::new(alloc, bytes.as_slice()) {
        Ok(name) => Ok((name, rest)),
        Err(NameError::Memory) => Err(Fault::Memory),
        Err(_) => Err(Fault::At {
            cause: Cause::Range,
            left: left.len(),
        }),
    }
}

/// Appends a run's id between quotes.
pub fn push_run(text: &mut Vec<u8>, run: RunId) -> Result<(), OutOfMemory>
    ensures { OnOk result (text.new.items ≡ text.old.items ++ quoted (run_text run)) }
{
    let id = run.text(*text.allocator())?;
    push_quoted(text, id.as_bytes())
}

/// The run of a parsed id, where its text is this one.
#[tactic(auto, unfolding(crate::specs::Bytes::run_of_value))]
fn run_of(alloc: Global, text: &[u8], value: u128) -> Result<Option<RunId>, OutOfMemory>
    ensures { IfOk result (λ run. run ≡ run_of_value text.now value) }
{
    let (high, low) = (value / (1 << 64), value % (1 << 64));
    let run = RunId { value };
    if high <= u128::from(MAX_VERSION)
        && 1 <= low
        && low <= u128::from(MAX_ID)
        && text == run.text(alloc)?.as_bytes()
    {
        Ok(Some(run))
    } else {
        Ok(None)
    }
}

/// The run whose id is this text.
fn run_from(alloc: Global, text: &[u8]) -> Result<Option<RunId>, OutOfMemory>
    ensures { IfOk result (λ run. run ≡ run_from text.now (parsed text.now)) }
{
    match Uuid::try_parse_ascii(text) {
        Ok(id) => run_of(alloc, text, id.as_u128()),
        Err(_) => Ok(None),
    }
}

/// Takes a run's id between quotes.
pub fn take_run(alloc: Global, left: &[u8]) -> Result<(RunId, &[u8]), Fault>
    ensures { Gives Memory (λ taken. (taken.0, taken.1.now)) result (run_at left.now) }
{
    let (bytes, rest) = take_text(alloc, left)?;
    match run_from(alloc, bytes.as_slice())? {
        Some(run) => Ok((run, rest)),
        None => Err(Fault::At {
            cause: Cause::Range,
            left: left.len(),
        }),
    }
}

/// Appends `true` or `false`.
pub fn push_flag(text: &mut Vec<u8>, flag: bool) -> Result<(), OutOfMemory>
    ensures { OnOk result (text.new.items ≡ text.old.items ++ flag_text flag) }
{
    if flag {
        text.extend_from_slice(b"true")
    } else {
        text.extend_from_slice(b"false")
    }
}

/// Takes `true` or `false`.
pub fn take_flag(left: &[u8]) -> Result<(bool, &[u8]), Fault>
    ensures { Gives Memory (λ taken. (taken.0, taken.1.now)) result (flag_at left.now) }
{
    match after(left, b"true") {
        Some(rest) => Ok((true, rest)),
        None => {
            let rest = expect(left, b"false")?;
            Ok((false, rest))
        }
    }
}
