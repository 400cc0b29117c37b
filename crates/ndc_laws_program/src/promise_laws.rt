// What is promised of every script, as a law.
ghost use Rattle.ndc_script_types.specs.WellFormed.{IsWellFormed};
ghost use Rattle.ndc_script_types.specs.declared.script.Script.{Script as Whole};
ghost use Rattle.ndc_laws_program.specs.Promises.{KeepsPromises};

/// What is promised of every well-formed script. In each of its worlds, which are as they should be after the lines
/// that led to them, clusters that learned the same show the same, each run has one current branch, the only one of
/// greatest last version, states replay their branches, no signal stands twice on a branch, and batches wait exactly
/// while an ancestor is missing; each version has one writer, each closed part of what was written has one current
/// branch a run, messages are answered by what has arrived, and progress reports are held as they were told. After its
/// lines settlements, resends, bootstraps, resets, letters and handovers leave what they should, each dump is a dump,
/// what a handover has ended stays ended, and each progress report was told by the cluster that writes with its
/// version.
pub fn every_script_keeps_what_is_promised()
    ensures { (script : Whole) → IsWellFormed script → KeepsPromises script }
{}
