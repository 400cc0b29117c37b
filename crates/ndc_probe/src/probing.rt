//! A script is run line by line, and what is asked between its lines is answered there.
ghost use Rattle.std.specs.Prelude.{◌≡◌, ◌<◌, ◌≤◌, ◌+◌, ◌++◌, Err, [], drop, false, length, IfOk, OnOk, OnErr, List};
ghost use Rattle.std.specs.List.{flat_map, prefix_len};
ghost use Rattle.ndc_script_types.specs.WellFormed.{IsWellFormed, IsWellFormedAct, IsWellFormedHeader};
ghost use Rattle.ndc_script_types.specs.declared.script.Script.{Script as Whole};
ghost use Rattle.ndc_script_words.specs.Text.{KeptLine as Asked};
ghost use Rattle.ndc_model.specs.Lines.{lines_of_act, world_behind};
ghost use Rattle.ndc_model.specs.Report.{report_of};
ghost use Rattle.ndc_model.specs.Standing.{StandFor};
ghost use Rattle.ndc_model.specs.World.{World};
ghost use Rattle.ndc_port.specs.Bytes.{Appends, AppendsFront};
ghost use Rattle.ndc_port.specs.Fault.{Rose};
ghost use Rattle.ndc_world.specs.Rest.{at_world};
ghost use Rattle.ndc_world.specs.Running.{ran_at};
ghost use Rattle.ndc_world.specs.declared.error.RunError.TheVariants as run_error;
ghost use Rattle.ndc_probe.specs.Answers.{answer_to};
ghost use Rattle.ndc_probe.specs.Comments.{commented};
ghost use Rattle.ndc_probe.specs.Notices.{noticed};
ghost use Rattle.ndc_probe.specs.Probed.{above, line_text, probed, stands_above, text_of, told_of_lines};

use crate::answering::push_answer;
use crate::comments::push_comments;
use crate::notices::push_noticed;
use ndc_event::OutOfMemory;
use ndc_port::{Gate, Sink, write_all};
use ndc_probe_questions::KeptLine;
use ndc_script_types::{Act, Header, Line, Script};
use ndc_world::{Answer, RunError, ShardWorld};
use std::alloc::Global;
use std::thread::Threads;

/// How many of the first questions stand above a line of this number.
fn count_above(asked: &[KeptLine], number: u64) -> usize
    ensures count { result ≡ prefix_len (stands_above number) asked.now }
    ensures most { result ≤ length asked.now }
{
    let mut count = 0;
    for one in asked {
        if one.number() >= number {
            return count;
        }
        count += 1;
    }
    count
}

/// The questions from a place on that stand above a line of this number.
fn above<'a, 'b>(asked: &'a [KeptLine<'b>], place: usize, number: u64) -> &'a [KeptLine<'b>]
    requires { place ≤ length asked.now }
    ensures above { result.now ≡ above number (drop place asked.now) }
    ensures most { place + length result.now ≤ length asked.now }
{
    let (_before, left) = asked.split_at(place);
    let (above, _below) = left.split_at(count_above(left, number));
    above
}

/// Appends the answers to questions, as comments.
fn push_answers(
    text: &mut Vec<u8>,
    alloc: Global,
    header: &Header,
    world: &ShardWorld,
    asked: &[KeptLine],
) -> Result<(), OutOfMemory>
    requires unspent { world.now.spent ≡ false }
    requires header { world.now.header ≡ header.now }
    requires fit { IsWellFormedHeader header.now }
    ensures { OnOk result (text.new.items ≡ text.old.items ++ commented (flat_map (answer_to header.now world.now.world) asked.now)) }
{
    let mut answers = Vec::new(alloc);
    for one in asked {
        push_answer(&mut answers, alloc, header, world, one)?;
    }
    push_comments(text, answers.as_slice())
}

/// Appends what is told unasked after a line, as comments.
fn push_notices(
    text: &mut Vec<u8>,
    alloc: Global,
    header: &Header,
    world: &ShardWorld,
    act: &Act,
) -> Result<(), OutOfMemory>
    requires unspent { world.now.spent ≡ false }
    requires act { IsWellFormedAct header.now act.now }
    ensures { OnOk result (text.new.items ≡ text.old.items ++ commented (noticed header.now act.now world.now.world)) }
{
    let mut notices = Vec::new(alloc);
    push_noticed(&mut notices, header, world, act)?;
    push_comments(text, notices.as_slice())
}

/// Runs a line; gives what is written of it: the answers to the questions above it, its own, and what is told unasked.
fn line_text<R: Threads + Sync, G: Gate>(
    rt: &R,
    alloc: Global,
    gate: &G,
    workers: u32,
    header: &Header,
    world: &mut ShardWorld,
    line: &Line,
    asked: &[KeptLine],
) -> Result<Vec<u8>, OutOfMemory>
    requires unspent { world.old.spent ≡ false }
    requires header { world.old.header ≡ header.now }
    requires fit { IsWellFormedHeader header.now }
    requires workers { 0 < workers }
    requires act { IsWellFormedAct header.now line.now.act }
    requires lines { world.old.lines + length (lines_of_act line.now.number line.now.act) ≤ 100000 }
    ensures unspent { OnOk result (world.new.spent ≡ false) }
    ensures header { OnOk result (world.new.header ≡ world.old.header) }
    ensures lines { OnOk result (world.new.lines ≡ world.old.lines + length (lines_of_act line.now.number line.now.act)) }
    ensures stands { OnOk result ((w : World) → StandFor world.old.world world.old.reports w → StandFor world.new.world world.new.reports (world_behind w (ran_at (at_world world.old w) line.now))) }
    ensures text { IfOk result (λ text. (w : World) → StandFor world.old.world world.old.reports w → text.items ≡ line_text (at_world world.old w) line.now asked.now) }
{
    let mut text = Vec::new(alloc);
    push_answers(&mut text, alloc, header, world, asked)?;
    let Answer {
        text: answer,
        seen: _seen,
    } = world.step(rt, alloc, gate, workers, line)?;
    text.extend_from_slice(answer.as_slice())?;
    push_notices(&mut text, alloc, header, world, &line.act)?;
    Ok(text)
}

/// Runs a script on so many workers at most, through the gate, as [`ndc_world::run_script`] does without indexers. What
/// is asked above a line is answered in the world in which the line runs, before it; what is asked after the last line,
/// in the world that the script leaves. After a line that joins, fails over, pulls or shows levels stands where a
/// reader that it names is late. All this stands in comments beside the answers of the lines.
///
/// What belongs to a line is written in one piece as soon as it has run. [`RunError::Write`] where a write failed, and only
/// there, [`RunError::Memory`] where memory ran out: then a prefix was written.
pub fn probe_script<R: Threads + Sync, G: Gate, K: Sink>(
    rt: &R,
    alloc: Global,
    gate: &G,
    workers: u32,
    script: &Script,
    asked: &[KeptLine],
    out: &mut K,
) -> Result<(), RunError>
    requires workers { 0 < workers }
    requires script { IsWellFormed script.now }
    ensures whole { OnOk result (Appends (K.written out.old) (K.written out.new) (text_of (probed script.now asked.now))) }
    ensures front { OnErr result (AppendsFront (K.written out.old) (K.written out.new) (text_of (probed script.now asked.now))) }
    ensures cause { result ≡ Err run_error.Write → Rose (K.faults out.old) (K.faults out.new) }
    ensures count { K.faults out.old ≤ K.faults out.new }
{
    let header = &script.header;
    let mut world = ShardWorld::build(alloc, header)?;
    let mut place = 0;
    for line in script.lines.as_slice() {
        let above = above(asked, place, line.number);
        let text = line_text(rt, alloc, gate, workers, header, &mut world, line, above)?;
        write_all(out, text.as_slice())?;
        place += above.len();
    }
    let (_before, left) = asked.split_at(place);
    let mut text = Vec::new(alloc);
    push_answers(&mut text, alloc, header, &world, left)?;
    write_all(out, text.as_slice())?;
    std::mem::forget(world);
    Ok(())
}

/// Whatever is asked, what the lines of a script answer is its report.
pub fn what_lines_answer_is_the_report()
    ensures { (script : Whole) (asked : List Asked) → told_of_lines (probed script asked) ≡ report_of script [] [] }
{}
