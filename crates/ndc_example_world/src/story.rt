//! What happens in the world, and what is told of it.
ghost use Rattle.ndc_script_types.specs.WellFormed.{IsWellFormedHeader};

use crate::error::StoryError;
use crate::stage::Stage;
use crate::telling::{push_answer, summary_line};
use ndc_event::{BatchKey, Name};
use ndc_script_read::parse;
use ndc_script_types::Header;
use std::alloc::Global;
use std::thread::Threads;

/// The header of a script, which has no line yet.
const HEADER: &[u8] = b"ndc 1\nincrement 10\nshards 2\nlimit 100\ncluster A 1\ncluster B 2\n";

/// Lines by which A and B come to share a domain.
const SHARED: &[u8] = b"register A alpha A 7\ndomains B A\n";

/// Lines by which B hears of what A wrote.
const REPLICATED: &[u8] = b"pull B A\nwork B\n";

/// Lines by which B takes the domain over, of which A does not hear, and a signal comes to both.
const FAILOVER: &[u8] =
    b"failover B alpha B\nsignal B alpha w1 paid now\nsignal A alpha w1 sent now\n";

/// B hears of the workflow; what it has learned is asked before and after.
fn replicate<R: Threads + Sync>(
    rt: &R,
    alloc: Global,
    stage: &mut Stage,
    text: &mut Vec<u8>,
) -> Result<(), StoryError> {
    let key = BatchKey {
        version: 1,
        task: 1,
    };
    stage.tell_learned(b"B", key, text)?;
    stage.run(rt, alloc, 10, REPLICATED, text)?;
    stage.tell_learned(b"B", key, text)
}

/// B takes the domain over; both tell which record they have.
fn fail_over<R: Threads + Sync>(
    rt: &R,
    alloc: Global,
    stage: &mut Stage,
    text: &mut Vec<u8>,
) -> Result<(), StoryError> {
    stage.run(rt, alloc, 12, FAILOVER, text)?;
    stage.tell_record(b"A", text)?;
    stage.tell_record(b"B", text)
}

/// Settles the world, and tells whether both clusters show the same of the workflow then, and whether that is what is read
/// of the batches alone.
fn settle<R: Threads + Sync>(
    rt: &R,
    alloc: Global,
    stage: &mut Stage,
    text: &mut Vec<u8>,
) -> Result<(), StoryError> {
    let is_same = stage.settle(rt, alloc, b"A", b"B", text)?;
    push_answer(text, b"both show the same: ", is_same)?;
    let here = stage.shown(alloc, b"A")?;
    let again = stage.read_again(alloc, b"A")?;
    let is_same = again.as_slice() == here.as_slice();
    push_answer(text, b"and so do the batches alone: ", is_same)?;
    Ok(())
}

/// All that happens in a new world.
fn play_in<R: Threads + Sync>(
    rt: &R,
    alloc: Global,
    stage: &mut Stage,
    text: &mut Vec<u8>,
) -> Result<(), StoryError> {
    stage.run(rt, alloc, 7, SHARED, text)?;
    stage.start(rt, alloc, 9, b"A", text)?;
    replicate(rt, alloc, stage, text)?;
    fail_over(rt, alloc, stage, text)?;
    settle(rt, alloc, stage, text)?;
    let summary = stage.summary(alloc)?;
    summary_line(text, &summary)?;
    Ok(())
}

/// All that happens under a header.
fn play_under<R: Threads + Sync>(
    rt: &R,
    alloc: Global,
    header: &Header,
    text: &mut Vec<u8>,
) -> Result<(), StoryError>
    requires { IsWellFormedHeader header.now }
{
    let domain = Name::new(alloc, b"alpha")?;
    let workflow = Name::new(alloc, b"w1")?;
    let mut stage = Stage::new(alloc, header, &domain, &workflow)?;
    play_in(rt, alloc, &mut stage, text)
}

/// Reads the header, lets all of it happen, and gives the lines that tell of it.
pub(crate) fn play<R: Threads + Sync>(rt: &R, alloc: Global) -> Result<Vec<u8>, StoryError> {
    let script = parse(alloc, HEADER)?;
    let mut text = Vec::new(alloc);
    play_under(rt, alloc, &script.header, &mut text)?;
    Ok(text)
}
