ghost use Rattle.std.specs.Prelude.{◌≡◌, IfOk, IsTrue, drop, get_or, ◌<◌};
ghost use Rattle.std.specs.Arc.{arc_value};
ghost use Rattle.std.specs.Cmp.Lexicographic.{slice_cmp};
ghost use Rattle.std.specs.List.{list_all};
ghost use Rattle.std.specs.Ordering.{nat_cmp};
ghost use Rattle.std.specs.String.{string_bytes};
ghost use Rattle.ndc_event.specs.Front.{IsSpelled, front_of};
ghost use Rattle.ndc_event.specs.Name.{is_name, is_name_byte};

use crate::OutOfMemory;
use std::alloc::{AllocError, Global};
use std::cmp::Ordering;
use std::fmt;
use std::hash::{Hash, Hasher};
use std::marker::Model;
use std::string::String;
use std::sync::Arc;
use thiserror::Error;

/// The greatest length of a name, in bytes.
pub const MAX_NAME: usize = 200;

/// Why bytes are not name.
#[derive(Clone, Copy, Debug, PartialEq, Eq, Error)]
pub enum NameError {
    #[error("a name has at least one byte")]
    Empty,
    #[error("a name has at most 200 bytes")]
    TooLong,
    #[error("a name has the bytes from `!` to `~` alone")]
    BadByte,
    #[error("out of memory")]
    Memory,
}

impl From<AllocError> for NameError {
    ghost use Rattle.std.specs.Prelude.{◌≡◌};
    ghost use Rattle.ndc_event.specs.declared.name.NameError.TheVariants.{Memory};

    ghost from_gives = { λ _ e. e ≡ Memory };

    fn from(_error: AllocError) -> NameError {
        NameError::Memory
    }
}

/// The text of a name, and its first eight bytes as one number: most names differ there.
#[derive(Drop)]
struct Spelled {
    front: u64,
    text: String<Global>,
}

/// The name of a domain, a workflow, a signal, an activity and so on: 1 to 200 bytes from `!` to `~`.
/// Copies share the bytes. Names are ordered as their bytes are.
#[derive(Drop)]
pub struct Name {
    spelled: Arc<Spelled, Global>,
}

impl Model for Name {
    ghost use Rattle.std.specs.Prelude.{List, ℕ};
    ghost use Rattle.std.specs.Arc.{arc_value};
    ghost use Rattle.std.specs.String.{string_bytes};
    ghost use Rattle.ndc_event.specs.Front.{IsSpelled};

    ghost Value = { List ℕ };

    ghost view = { λ name. string_bytes (arc_value name.spelled).text };

    ghost invariant = { λ name. IsSpelled (arc_value name.spelled) };
}

/// Whether a name may have this byte.
fn is_name_byte(byte: u8) -> bool
    ensures { result ≡ is_name_byte byte }
{
    33 <= byte && byte <= 126
}

/// Whether a name may have each of these bytes.
fn are_name_bytes(bytes: &[u8]) -> bool
    ensures { result ≡ list_all is_name_byte bytes.now }
{
    bytes.iter().all(|byte| is_name_byte(*byte))
}

/// How many bytes stand in the prefix of a name.
const FRONT: usize = 8;

/// How many bytes after the prefix of names are compared one by one, before all are compared as text.
const NEAR: usize = 16;

/// The byte at this place, 0 where there is none.
fn byte_at(bytes: &[u8], place: usize) -> u8
    ensures byte { result ≡ get_or bytes.now place 0 }
    ensures small { result < 256 }
{
    match bytes.get(place) {
        Some(byte) => *byte,
        None => 0,
    }
}

/// The first eight bytes as one number, the first byte the highest, zeros where there are fewer.
fn front_of(bytes: &[u8]) -> u64
    ensures { result ≡ front_of bytes.now }
{
    let mut front: u64 = 0;
    for place in 0..FRONT {
        front = front * 256 + u64::from(byte_at(bytes, place));
    }
    front
}

/// What is kept of this name.
fn spell(alloc: Global, text: &str) -> Result<Arc<Spelled, Global>, OutOfMemory>
    requires { IsTrue (is_name text.now) }
    ensures text { IfOk result (λ spelled. string_bytes (arc_value spelled).text ≡ text.now) }
    ensures spelled { IfOk result (λ spelled. IsSpelled (arc_value spelled)) }
{
    let spelled = Spelled {
        front: front_of(text.as_bytes()),
        text: String::from_str(alloc, text)?,
    };
    Ok(Arc::new(alloc, spelled)?)
}

/// What stands after the prefix of a name.
fn behind_front(bytes: &[u8]) -> &[u8]
    ensures { result.now ≡ drop 8 bytes.now }
{
    if bytes.len() <= FRONT {
        return &[];
    }
    bytes.split_at(FRONT).1
}

/// How bytes compare, one by one at their beginning.
fn compared(one: &[u8], two: &[u8]) -> Ordering
    ensures { result ≡ slice_cmp nat_cmp one.now two.now }
{
    if one.is_empty() && two.is_empty() {
        return Ordering::Equal;
    }
    let both = one.len().min(two.len());
    for place in 0..both.min(NEAR) {
        if one[place] != two[place] {
            return one[place].cmp(&two[place]);
        }
    }
    if both <= NEAR {
        return one.len().cmp(&two.len());
    }
    one.cmp(two)
}

impl Name {
    ghost use Rattle.std.specs.Prelude.{◌≡◌, IfOk, IsTrue};
    ghost use Rattle.ndc_event.specs.Name.{is_name, name_of};
    ghost use Rattle.ndc_event.specs.Outcome.{Gives};
    ghost use Rattle.ndc_event.specs.declared.name.NameError.TheVariants.{Memory};

    /// The name of these bytes. Refused with [`NameError::Empty`] where there is none,
    /// [`NameError::TooLong`] above 200 of them, and [`NameError::BadByte`] where one is outside `!` to `~`.
    pub fn new(alloc: Global, bytes: &[u8]) -> Result<Name, NameError>
        ensures { Gives Memory (λ name. name) result (name_of bytes.now) }
    {
        if bytes.is_empty() {
            return Err(NameError::Empty);
        }
        if bytes.len() > MAX_NAME {
            return Err(NameError::TooLong);
        }
        if !are_name_bytes(bytes) {
            return Err(NameError::BadByte);
        }
        match std::str::from_utf8(bytes) {
            Ok(text) => Ok(Name {
                spelled: spell(alloc, text)?,
            }),
            Err(_) => unreachable!(),
        }
    }

    /// The name as text.
    pub fn as_str(&self) -> &str
        ensures text { result.now ≡ self.now }
        ensures is_name { IsTrue (is_name self.now) }
    {
        self.spelled.text.as_str()
    }

    /// The bytes of the name.
    pub fn as_bytes(&self) -> &[u8]
        ensures bytes { result.now ≡ self.now }
        ensures is_name { IsTrue (is_name self.now) }
    {
        self.as_str().as_bytes()
    }

    /// The same name, over the same bytes.
    pub fn try_copy(&self) -> Result<Name, OutOfMemory>
        ensures { IfOk result (λ copy. copy ≡ self.now) }
    {
        Ok(Name {
            spelled: self.spelled.clone()?,
        })
    }

    /// The first eight bytes of the name as one number.
    fn front(&self) -> u64
        ensures front { result ≡ front_of self.now }
        ensures is_name { IsTrue (is_name self.now) }
    {
        self.spelled.front
    }

    /// How the names compare, byte by byte.
    fn compared(&self, other: &Name) -> Ordering
        ensures { result ≡ slice_cmp nat_cmp self.now other.now }
    {
        let (front, others) = (self.front(), other.front());
        if front != others {
            return front.cmp(&others);
        }
        compared(
            behind_front(self.as_bytes()),
            behind_front(other.as_bytes()),
        )
    }
}

impl Clone for Name {
    ghost use Rattle.std.specs.Prelude.{◌≡◌};

    ghost is_clone = { λ name copy. copy ≡ name };

    fn clone(&self) -> Result<Name, OutOfMemory> {
        self.try_copy()
    }
}

impl PartialEq for Name {
    ghost use Rattle.std.specs.Prelude.{nat_eq};
    ghost use Rattle.std.specs.Cmp.{partial_equiv_from_equiv};
    ghost use Rattle.std.specs.Cmp.Lexicographic.{pointwise, nat_list_eq_equiv};

    ghost eq = { λ one two. pointwise nat_eq one two };

    ghost laws = { partial_equiv_from_equiv nat_list_eq_equiv };

    fn eq(&self, other: &Name) -> bool {
        self.compared(other).is_eq()
    }
}

impl Eq for Name {
    ghost use Rattle.std.specs.Cmp.Lexicographic.{nat_list_eq_equiv};

    ghost laws = { nat_list_eq_equiv };
}

impl PartialOrd for Name {
    ghost use Rattle.std.specs.Prelude.{Some};
    ghost use Rattle.std.specs.Ordering.{nat_cmp};
    ghost use Rattle.std.specs.Cmp.Lexicographic.{slice_cmp, texts_po};

    ghost partial_cmp = { λ one two. Some (slice_cmp nat_cmp one two) };

    ghost laws = { texts_po };

    fn partial_cmp(&self, other: &Name) -> Option<Ordering> {
        Some(self.cmp(other))
    }
}

impl Ord for Name {
    ghost use Rattle.std.specs.Prelude.{refl};
    ghost use Rattle.std.specs.Ordering.{nat_cmp};
    ghost use Rattle.std.specs.Cmp.Lexicographic.{slice_cmp, nat_list_cmp_total, texts_ties};

    ghost cmp = { slice_cmp nat_cmp };

    ghost total = { nat_list_cmp_total };

    ghost matches_partial_cmp = { λ one two. refl };

    ghost matches_eq = { texts_ties };

    fn cmp(&self, other: &Name) -> Ordering {
        self.compared(other)
    }
}

impl Hash for Name {
    ghost use Rattle.std.specs.Hash as fed;
    ghost use Rattle.std.specs.Cmp.Rules.{hashing};
    ghost use Rattle.std.proofs.Common.{rules};

    ghost hash_input = { fed.str };

    ghost respects_eq = { Prim.search (hashing, rules) };

    fn hash<H: Hasher>(&self, state: &mut H) {
        self.as_str().hash(state);
    }
}

impl fmt::Display for Name {
    ghost use Rattle.std.specs.Prelude.{Some};

    ghost output = { λ name. Some name };

    fn fmt<W: fmt::Write>(&self, f: &mut fmt::Formatter<W>) -> fmt::Result {
        f.pad(self.as_str())
    }
}

impl fmt::Debug for Name {
    fn fmt<W: fmt::Write>(&self, f: &mut fmt::Formatter<W>) -> fmt::Result {
        write!(f, "{}", self.as_str())
    }
}
