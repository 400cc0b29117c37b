//! What becomes of a script that was made.
ghost use Rattle.std.specs.Prelude.{◌≡◌, ◌≤◌, ◌++◌, IfOk, OnOk, codes, decimal};
ghost use Rattle.ndc_script.specs.Generate.{generated_script};
ghost use Rattle.ndc_tool_top.specs.Demo.{answer_of, demo_text, summary_line};

use ndc_event::OutOfMemory;
use ndc_port::Gate;
use ndc_script::generate;
use ndc_shard::Shard;
use ndc_world::{Summary, last_world};
use std::alloc::Global;
use std::thread::Threads;

/// Appends a word and a number after it.
fn push_count(text: &mut Vec<u8>, word: &[u8], number: u64) -> Result<(), OutOfMemory>
    ensures { OnOk result (text.new.items ≡ text.old.items ++ word.now ++ decimal number) }
{
    let mut buffer = itoa::Buffer::new();
    text.extend_from_slice(word)?;
    text.extend_from_slice(buffer.format(number).as_bytes())
}

/// `yes` or `no`.
fn answer_of(same: bool) -> &'static str
    ensures { result.now ≡ answer_of same }
{
    if same { "yes" } else { "no" }
}

/// The line on what a world comes to.
fn summary_line(alloc: Global, summary: &Summary) -> Result<Vec<u8>, OutOfMemory>
    ensures { IfOk result (λ text. text.items ≡ summary_line summary.now) }
{
    let mut text = Vec::new(alloc);
    push_count(&mut text, b"answers ", summary.answers)?;
    push_count(&mut text, b" refused ", summary.refused)?;
    push_count(&mut text, b" batches ", summary.batches)?;
    push_count(&mut text, b" workflows ", summary.workflows)?;
    push_count(&mut text, b" branches ", summary.branches)?;
    text.extend_from_slice(b" same ")?;
    text.extend_from_slice(answer_of(summary.same).as_bytes())?;
    text.extend_from_slice(b"\n")?;
    Ok(text)
}

/// What becomes of the script of so many lines that is drawn from the seed 0.
pub fn demo_text<R: Threads + Sync, G: Gate>(
    rt: &R,
    alloc: Global,
    gate: &G,
    count: u64,
) -> Result<Vec<u8>, OutOfMemory>
    requires least { 1 ≤ count }
    requires most { count ≤ 99000 }
    ensures { IfOk result (λ text. text.items ≡ demo_text (generated_script count 0)) }
{
    let script = generate(alloc, count, 0)?;
    let world = last_world::<R, G, Shard>(rt, alloc, gate, 1, &script)?;
    let summary = world.summary(alloc)?;
    summary_line(alloc, &summary)
}
