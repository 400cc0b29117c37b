//! What C calls of a node. `include/ndc.h` says what each call does, and what a caller keeps to.
#![tactic(auto)]

ghost use Rattle.std.specs.Prelude.{◌≡◌, None, IsSome, pos, option_map};
ghost use Rattle.ndc_c.specs.Answers.{RefusesNone, KeepsUnfetched, KeepsNode, TellsLength};
ghost use Rattle.ndc_c.specs.Answers.{WaitsForFetching, BeginsWithAnswer, answer_of, fetched};

mod code;
mod context;
mod handle;

use crate::code::{
    DONE, HAS_NODE, MEMORY, NO_NODE, REFUSED, SHORT, UNFETCHED, code_of_load, code_of_open,
    words_of,
};
use crate::context::Context;
use crate::handle::Handle;
use ndc_loose::Loose;
use ndc_node::Bounds;
use ndc_node_lines::{Code, Reply, Session};
use std::alloc::Global;
use std::mem::replace;

/// The version of this interface: it rises where a call changes its meaning.
const INTERFACE: u32 = 1;

/// What a node takes at most, as C says it.
#[repr(C)]
#[derive(Clone, Copy)]
pub struct Limits {
    pub frame: u64,
    pub waiting: u64,
    pub held: u64,
    pub letters: u64,
}

/// The bounds that these are.
fn bounds_of(limits: &Limits) -> Bounds {
    Bounds {
        frame: limits.frame as usize,
        waiting: limits.waiting,
        held: limits.held as usize,
        letters: limits.letters as usize,
    }
}

/// Takes the node out of a handle, and leaves it without one.
fn taken(handle: &mut Handle, alloc: Global) -> Option<Box<Context>>
    ensures left { handle.new.context ≡ None }
    ensures taken { option_map (λ context. context.value) result ≡ handle.old.context }
{
    match replace(handle, Handle::null()).into_loose(alloc) {
        None => None,
        Some(context) => Some(context.into_box()),
    }
}

/// Gives a handle the node that a session drives, and its code.
fn put_session(handle: &mut Handle, session: Session, alloc: Global) -> i32
    ensures done { (result ≡ pos 0) → IsSome handle.new.context }
{
    let context = Context {
        session,
        answer: Vec::new(alloc),
        is_fetched: true,
    };
    let Ok(context) = Box::new(alloc, context) else {
        return MEMORY;
    };
    *handle = Handle::of(Loose::of(context));
    DONE
}

/// Makes a node in which nothing has happened.
#[unsafe(no_mangle)]
pub extern "C" fn ndc_open(
    handle: &mut Handle,
    header: &[u8],
    name: &[u8],
    limits: &Limits,
    alloc: Global,
) -> i32
    ensures done { (result ≡ pos 0) → IsSome handle.new.context }
    ensures kept { KeepsNode handle.old.context handle.new.context result }
{
    if let Some(context) = taken(handle, alloc) {
        *handle = Handle::of(Loose::of(context));
        return HAS_NODE;
    }
    match Session::open(alloc, header, name, bounds_of(limits)) {
        Ok(session) => put_session(handle, session, alloc),
        Err(error) => code_of_open(error),
    }
}

/// Makes the node that was stored. Tells how many bytes at the end are part of a unit, and the line of
/// a unit that is wrong.
#[unsafe(no_mangle)]
pub extern "C" fn ndc_load(
    handle: &mut Handle,
    kept: &[u8],
    limits: &Limits,
    dropped: &mut u64,
    line: &mut u64,
    alloc: Global,
) -> i32
    ensures done { (result ≡ pos 0) → IsSome handle.new.context }
    ensures kept { KeepsNode handle.old.context handle.new.context result }
{
    *dropped = 0;
    *line = 0;
    if let Some(context) = taken(handle, alloc) {
        *handle = Handle::of(Loose::of(context));
        return HAS_NODE;
    }
    match Session::load(alloc, kept, bounds_of(limits)) {
        Ok(loaded) => {
            *dropped = loaded.dropped;
            put_session(handle, loaded.session, alloc)
        }
        Err(error) => {
            let (code, wrong) = code_of_load(error);
            *line = wrong;
            code
        }
    }
}

/// Ends a node, and gives its memory back. A handle without one stays so.
#[unsafe(no_mangle)]
pub extern "C" fn ndc_close(handle: &mut Handle, alloc: Global)
    ensures { handle.new.context ≡ None }
{
    let _closed = taken(handle, alloc);
}

/// What is asked of a node that makes an answer.
#[derive(Clone, Copy)]
enum Call<'a> {
    Line(&'a [u8]),
    Hear(&'a [u8]),
    Ask(&'a [u8]),
    Changes,
    Store,
}

/// The answer to a call.
fn reply_to(session: &mut Session, call: Call, alloc: Global) -> Reply {
    match call {
        Call::Line(line) => session.line(line),
        Call::Hear(frame) => session.hear(frame),
        Call::Ask(name) => session.ask(name),
        Call::Changes => next_change(session, alloc),
        Call::Store => session.store(),
    }
}

/// The next unit that is not stored; nothing where all are.
fn next_change(session: &Session, alloc: Global) -> Reply {
    let mut text = Vec::new(alloc);
    let code = match session.changes() {
        Some(unit) if text.extend_from_slice(unit).is_err() => Code::Memory,
        _ => Code::Done,
    };
    Reply { code, text }
}

/// Makes the answer to a call, to be fetched, and tells its length; only where the one before was
/// fetched.
fn make_answer(handle: &mut Handle, call: Call, len: &mut u64, alloc: Global) -> i32
    ensures none { RefusesNone handle.old.context handle.new.context result }
    ensures kept { KeepsUnfetched handle.old.context handle.new.context result }
    ensures told { TellsLength handle.new.context len.new }
    ensures waits { WaitsForFetching handle.new.context }
{
    *len = 0;
    let Some(mut context) = taken(handle, alloc) else {
        return NO_NODE;
    };
    let mut code = UNFETCHED;
    if context.is_fetched {
        let Reply { code: became, text } = reply_to(&mut context.session, call, alloc);
        code = became.number();
        context.is_fetched = text.is_empty();
        context.answer = text;
    }
    *len = context.answer.len() as u64;
    *handle = Handle::of(Loose::of(context));
    code
}

/// The numbers of the unit that is the next to be stored, and of the last one that was made; 0 without
/// a node.
fn units_of(handle: &mut Handle, alloc: Global) -> (u64, u64)
    ensures kept { handle.new.context ≡ handle.old.context }
{
    let Some(context) = taken(handle, alloc) else {
        return (0, 0);
    };
    let units = (context.session.next_unit(), context.session.last_unit());
    *handle = Handle::of(Loose::of(context));
    units
}

/// Takes a line.
#[unsafe(no_mangle)]
pub extern "C" fn ndc_line(handle: &mut Handle, line: &[u8], len: &mut u64, alloc: Global) -> i32
    ensures none { RefusesNone handle.old.context handle.new.context result }
    ensures kept { KeepsUnfetched handle.old.context handle.new.context result }
    ensures told { TellsLength handle.new.context len.new }
    ensures waits { WaitsForFetching handle.new.context }
{
    make_answer(handle, Call::Line(line), len, alloc)
}

/// Hears a frame.
#[unsafe(no_mangle)]
pub extern "C" fn ndc_hear(handle: &mut Handle, frame: &[u8], len: &mut u64, alloc: Global) -> i32
    ensures none { RefusesNone handle.old.context handle.new.context result }
    ensures kept { KeepsUnfetched handle.old.context handle.new.context result }
    ensures told { TellsLength handle.new.context len.new }
    ensures waits { WaitsForFetching handle.new.context }
{
    make_answer(handle, Call::Hear(frame), len, alloc)
}

/// Asks what the node would say to another one, by its name.
#[unsafe(no_mangle)]
pub extern "C" fn ndc_ask(handle: &mut Handle, name: &[u8], len: &mut u64, alloc: Global) -> i32
    ensures none { RefusesNone handle.old.context handle.new.context result }
    ensures kept { KeepsUnfetched handle.old.context handle.new.context result }
    ensures told { TellsLength handle.new.context len.new }
    ensures waits { WaitsForFetching handle.new.context }
{
    make_answer(handle, Call::Ask(name), len, alloc)
}

/// Gives the next unit that is not stored, and its number.
#[unsafe(no_mangle)]
pub extern "C" fn ndc_changes(
    handle: &mut Handle,
    unit: &mut u64,
    len: &mut u64,
    alloc: Global,
) -> i32
    ensures none { RefusesNone handle.old.context handle.new.context result }
    ensures kept { KeepsUnfetched handle.old.context handle.new.context result }
    ensures told { TellsLength handle.new.context len.new }
    ensures waits { WaitsForFetching handle.new.context }
{
    let (next, _) = units_of(handle, alloc);
    *unit = next;
    make_answer(handle, Call::Changes, len, alloc)
}

/// Gives the node whole, and the number of the last unit that is in it.
#[unsafe(no_mangle)]
pub extern "C" fn ndc_store(
    handle: &mut Handle,
    unit: &mut u64,
    len: &mut u64,
    alloc: Global,
) -> i32
    ensures none { RefusesNone handle.old.context handle.new.context result }
    ensures kept { KeepsUnfetched handle.old.context handle.new.context result }
    ensures told { TellsLength handle.new.context len.new }
    ensures waits { WaitsForFetching handle.new.context }
{
    let (_, last) = units_of(handle, alloc);
    *unit = last;
    make_answer(handle, Call::Store, len, alloc)
}

/// Notes that all units up to this one are stored.
#[unsafe(no_mangle)]
pub extern "C" fn ndc_stored(handle: &mut Handle, unit: u64, alloc: Global) -> i32
    ensures none { RefusesNone handle.old.context handle.new.context result }
    ensures kept { answer_of handle.new.context ≡ answer_of handle.old.context }
{
    let Some(mut context) = taken(handle, alloc) else {
        return NO_NODE;
    };
    let code = if context.session.stored(unit) {
        DONE
    } else {
        REFUSED
    };
    *handle = Handle::of(Loose::of(context));
    code
}

/// Copies the answer out. It stays until the next one is made, so a short buffer loses nothing.
#[unsafe(no_mangle)]
pub extern "C" fn ndc_reply(
    handle: &mut Handle,
    out: &mut [u8],
    len: &mut u64,
    alloc: Global,
) -> i32
    ensures copied { (result ≡ pos 0) → BeginsWithAnswer handle.old.context out.new }
    ensures fetched { (result ≡ pos 0) → handle.new.context ≡ option_map fetched handle.old.context }
    ensures kept { ((result ≡ pos 0) → ⊥) → handle.new.context ≡ handle.old.context }
    ensures told { TellsLength handle.new.context len.new }
{
    *len = 0;
    let Some(mut context) = taken(handle, alloc) else {
        return NO_NODE;
    };
    let count = context.answer.len();
    *len = count as u64;
    let code = if count > out.len() {
        SHORT
    } else {
        out[..count].copy_from_slice(&context.answer);
        context.is_fetched = true;
        DONE
    };
    *handle = Handle::of(Loose::of(context));
    code
}

/// Tells what a code says, in words.
#[unsafe(no_mangle)]
pub extern "C" fn ndc_words(code: i32, out: &mut [u8], len: &mut u64) -> i32 {
    let words = words_of(code);
    *len = words.len() as u64;
    if words.len() > out.len() {
        return SHORT;
    }
    out[..words.len()].copy_from_slice(words);
    DONE
}

/// The version of this interface.
#[unsafe(no_mangle)]
pub extern "C" fn ndc_interface() -> u32
    ensures { result ≡ 1 }
{
    INTERFACE
}
