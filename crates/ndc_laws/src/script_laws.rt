// All worlds of a script, as laws.
ghost use Rattle.std.specs.List.{AllByRecursion};
ghost use Rattle.std.specs.Prelude.{ℕ, ◌+◌, ◌<◌, List, ◌∷◌, ◌++◌};
ghost use Rattle.ndc_script_types.specs.WellFormed.{IsWellFormed, IsWellFormedAct, IsWellFormedHeader};
ghost use Rattle.ndc_script_types.specs.declared.script.Act.{Act as Asked};
ghost use Rattle.ndc_script_types.specs.declared.script.Header.{Header as Head};
ghost use Rattle.ndc_script_types.specs.declared.script.Line.{Line as ScriptLine};
ghost use Rattle.ndc_script_types.specs.declared.script.Script.{Script as Whole};
ghost use Rattle.ndc_model.specs.Sometime.{IsReachedSometime};
ghost use Rattle.ndc_laws.specs.Counts.{AreReachedFrom};
ghost use Rattle.ndc_laws.specs.Promised.{IsAsPromised, RunsReached};
ghost use Rattle.ndc_model.specs.Facts.{IsReached};
ghost use Rattle.ndc_model.specs.Laws.{script_of};
ghost use Rattle.ndc_model.specs.Lines.{act_step, worlds_of};
ghost use Rattle.ndc_model.specs.World.{World};

/// Each well-formed line, in a world that is as it should be after fewer than 100,000 lines, leaves one that is so
/// after one line more.
pub fn every_line_keeps_worlds_reached()
    ensures { (header : Head) (lines : ℕ) (line : Asked) (w : World) → IsWellFormedHeader header
        → IsWellFormedAct header line → lines < 100000 → IsReached header lines w
        → IsReached header (lines + 1) (act_step header line w).world }
{}

/// Every world of a well-formed script is as it should be after some number of lines, at most 100,000.
pub fn every_world_of_a_script_is_reached()
    ensures { (script : Whole) → IsWellFormed script
        → AllByRecursion (IsReachedSometime script.header) (worlds_of script) }
{}

/// The opening world of a well-formed script is as it should be after no line, and the one after each of its lines,
/// with bursts taken apart, after one line more than the one before.
pub fn every_world_of_a_script_is_reached_behind_its_lines()
    ensures { (script : Whole) → IsWellFormed script
        → AreReachedFrom script.header 0 (worlds_of script) }
{}

/// Each line of a well-formed script is well-formed, and runs in a world that is as it should be after fewer than
/// 100,000 lines.
pub fn every_line_of_a_script_runs_in_a_reached_world()
    ensures { (header : Head) (front back : List ScriptLine) (line : ScriptLine)
        → IsWellFormed (script_of header (front ++ line ∷ back))
        → RunsReached header front line.act }
{}

/// Every world that lines lead to is as promised.
pub fn every_world_that_lines_lead_to_is_as_promised()
    ensures { (header : Head) (lines : ℕ) (w : World) → IsWellFormedHeader header
        → IsReached header lines w
        → IsAsPromised header w }
{}

/// In every world of a well-formed script clusters that learned the same batches of a workflow answer alike about it, and
/// `compare` answers `same` exactly then; each run that is learned has one branch of greatest last version, the current
/// one; each shown state replays its branch, on which no signal stands twice; and a batch waits exactly while an
/// ancestor is missing.
pub fn every_world_of_a_script_is_as_promised()
    ensures { (script : Whole) → IsWellFormed script
        → AllByRecursion (IsAsPromised script.header) (worlds_of script) }
{}
