//! Scripts made.
ghost use Rattle.std.specs.Prelude.{◌≡◌, ◌≤◌, IfOk};
ghost use Rattle.ndc_script_types.specs.Print.{script_text};
ghost use Rattle.ndc_script.specs.Generate.{generated_script};

use ndc_event::OutOfMemory;
use ndc_script::{generate, print};
use std::alloc::Global;

/// The text of a script of so many lines that is drawn from a seed.
pub fn made_text(alloc: Global, count: u64, seed: u64) -> Result<Vec<u8>, OutOfMemory>
    requires least { 1 ≤ count }
    requires most { count ≤ 99000 }
    ensures { IfOk result (λ text. text.items ≡ script_text (generated_script count seed)) }
{
    let script = generate(alloc, count, seed)?;
    print(alloc, &script)
}
