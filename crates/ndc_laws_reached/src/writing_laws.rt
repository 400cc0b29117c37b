// Writing in fair worlds, as laws.
ghost use Rattle.std.specs.Prelude.{ℕ, ◌<◌};
ghost use Rattle.ndc_script_types.specs.WellFormed.{IsWellFormedHeader};
ghost use Rattle.ndc_script_types.specs.declared.script.Header.{Header as Head};
ghost use Rattle.ndc_laws_reached.specs.Writing.{WritingKeeps};

/// Commands, resets and reapplication leave a world as it should be, where fewer than 100,000 lines were run: a
/// command or a reset with one line more run, and reapplication in a workflow where there is room for one batch more.
pub fn writing_keeps_worlds_reached()
    ensures { (header : Head) (lines : ℕ) → IsWellFormedHeader header → lines < 100000
        → WritingKeeps header lines }
{}
