// The object that bytes begin with, cut out without being read.
ghost use Rattle.std.specs.Prelude.{◌≡◌, ◌<◌, ◌≤◌, ◌^◌, ◌∷◌, drop, length, option_map, IfSome};
ghost use Rattle.ndc_event.specs.Outcome.{Gives};
ghost use Rattle.ndc_node_shapes.specs.Objects.{closed, step, rest_after, after_object, skipped, object_at};
ghost use Rattle.ndc_node_shapes.specs.declared.fault.Fault.TheVariants.{Memory};
ghost use Rattle.ndc_node_shapes.specs.declared.object.Place.TheVariants.{Outside};

use crate::fault::{Cause, Fault};

/// Where a reader of brackets stands: outside of a quoted text, inside of one, or there after a backslash.
#[derive(Clone, Copy, Debug, PartialEq, Eq)]
pub enum Place {
    Outside,
    Inside,
    Escaped,
}

/// One bracket closes: one of those that are open in the object, or its own.
fn closed(inner: usize) -> Option<(Place, usize)>
    ensures { result ≡ closed inner }
{
    if inner == 0 {
        None
    } else {
        Some((Place::Outside, inner - 1))
    }
}

/// Where a reader stands after a byte; nowhere where the object is closed.
fn step(place: Place, inner: usize, byte: u8) -> Option<(Place, usize)>
    requires { inner < 2 ^ 63 }
    ensures { result ≡ step place inner byte }
{
    match place {
        Place::Outside => match byte {
            b'"' => Some((Place::Inside, inner)),
            b'[' | b'{' => Some((Place::Outside, inner + 1)),
            b']' | b'}' => closed(inner),
            _ => Some((Place::Outside, inner)),
        },
        Place::Inside => match byte {
            b'"' => Some((Place::Outside, inner)),
            b'\\' => Some((Place::Escaped, inner)),
            _ => Some((Place::Inside, inner)),
        },
        Place::Escaped => Some((Place::Inside, inner)),
    }
}

/// How many bytes there are up to the bracket that closes the object, and with it.
#[tactic(auto, unfolding(crate::specs::Objects::rest_after), using(crate::proofs::OneByte::few))]
fn count_to_end(bytes: &[u8]) -> Option<usize>
    ensures rest { option_map (λ count. drop count bytes.now) result
        ≡ rest_after Outside 0 bytes.now }
    ensures within { IfSome result (λ count. count ≤ length bytes.now) }
{
    let mut place = Place::Outside;
    let mut inner = 0;
    for index in 0..bytes.len() {
        match step(place, inner, bytes[index]) {
            None => return Some(index + 1),
            Some((next, still)) => {
                place = next;
                inner = still;
            }
        }
    }
    None
}

/// How many bytes the object has that the bytes begin with; none where they begin with none that is closed.
fn object_len(bytes: &[u8]) -> Option<usize>
    ensures rest { option_map (λ count. drop count bytes.now) result ≡ after_object bytes.now }
    ensures within { IfSome result (λ count. count ≤ length bytes.now) }
{
    match bytes {
        [b'{', members @ ..] => Some(count_to_end(members)? + 1),
        _ => None,
    }
}

/// What comes after the object that the bytes begin with.
pub fn skip_object(left: &[u8]) -> Result<&[u8], Fault>
    ensures { Gives Memory (λ rest. rest.now) result (skipped left.now) }
{
    match object_len(left) {
        Some(count) => Ok(left.split_at(count).1),
        None => Err(Fault::At {
            cause: Cause::Unexpected,
            left: left.len(),
        }),
    }
}

/// Takes the bytes of an object.
pub fn take_object(left: &[u8]) -> Result<(&[u8], &[u8]), Fault>
    ensures { Gives Memory (λ taken. (taken.0.now, taken.1.now)) result (object_at left.now) }
{
    match object_len(left) {
        Some(count) => Ok(left.split_at(count)),
        None => Err(Fault::At {
            cause: Cause::Unexpected,
            left: left.len(),
        }),
    }
}
