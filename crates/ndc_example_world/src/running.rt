//! Lines that the world runs.
ghost use Rattle.std.specs.Prelude.{◌≡◌, false, OnOk};
ghost use Rattle.ndc_world.specs.Standing.{IsSettledWorld};
ghost use Rattle.ndc_script_types.specs.WellFormed.{IsWellFormedAct, IsWellFormedHeader};

use crate::error::StoryError;
use crate::telling::settled_line;
use ndc_port::OpenGate;
use ndc_script_read::read_lines;
use ndc_script_types::{Header, Line};
use ndc_world::ShardWorld;
use std::alloc::Global;
use std::thread::Threads;

/// Runs a line, and puts its answer after what was told.
pub(crate) fn run_line<R: Threads + Sync>(
    rt: &R,
    alloc: Global,
    world: &mut ShardWorld,
    line: &Line,
    text: &mut Vec<u8>,
) -> Result<(), StoryError>
    requires unspent { world.old.spent ≡ false }
    requires act { IsWellFormedAct world.old.header line.now.act }
    ensures unspent { OnOk result (world.new.spent ≡ false) }
    ensures header { world.new.spent ≡ false → world.new.header ≡ world.old.header }
{
    if !world.has_room(line) {
        return Err(StoryError::Full);
    }
    let answer = world.step(rt, alloc, &OpenGate {}, 1, line)?;
    text.extend_from_slice(answer.text.as_slice())?;
    Ok(())
}

/// Reads lines as they come, the first of which has this number, and runs each of them.
pub(crate) fn run_text<R: Threads + Sync>(
    rt: &R,
    alloc: Global,
    header: &Header,
    world: &mut ShardWorld,
    number: u64,
    bytes: &[u8],
    text: &mut Vec<u8>,
) -> Result<(), StoryError>
    requires fit { IsWellFormedHeader header.now }
    requires unspent { world.old.spent ≡ false }
    requires header { world.old.header ≡ header.now }
    ensures unspent { OnOk result (world.new.spent ≡ false) }
    ensures header { world.new.spent ≡ false → world.new.header ≡ header.now }
{
    let lines = read_lines(alloc, header, number, bytes)?;
    for line in lines.as_slice() {
        run_line(rt, alloc, world, line, text)?;
    }
    Ok(())
}

/// Lets all clusters come to the same state, and tells what that came to.
pub(crate) fn settle<R: Threads + Sync>(
    rt: &R,
    alloc: Global,
    world: &mut ShardWorld,
    text: &mut Vec<u8>,
) -> Result<(), StoryError>
    requires { world.old.spent ≡ false }
    ensures unspent { OnOk result (world.new.spent ≡ false) }
    ensures header { world.new.spent ≡ false → world.new.header ≡ world.old.header }
    ensures settled { OnOk result (IsSettledWorld world.new) }
{
    if world.lines() >= 100_000 {
        return Err(StoryError::Full);
    }
    let settled = world.settle(rt, alloc, &OpenGate {}, 1)?;
    settled_line(text, settled.learned, settled.reapplied)?;
    Ok(())
}
