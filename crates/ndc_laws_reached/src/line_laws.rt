// All lines and all worlds of a script, as laws.
ghost use Rattle.std.specs.List.{AllByRecursion};
ghost use Rattle.std.specs.Prelude.{ℕ, ◌+◌, ◌<◌};
ghost use Rattle.ndc_script_types.specs.WellFormed.{IsWellFormed, IsWellFormedAct, IsWellFormedHeader};
ghost use Rattle.ndc_script_types.specs.declared.script.Act.{Act as Asked};
ghost use Rattle.ndc_script_types.specs.declared.script.Header.{Header as Head};
ghost use Rattle.ndc_script_types.specs.declared.script.Script.{Script as Whole};
ghost use Rattle.ndc_laws_reached.specs.Writing.{WritingKeeps};
ghost use Rattle.ndc_model.specs.Sometime.{IsReachedSometime};
ghost use Rattle.ndc_model.specs.Facts.{IsReached};
ghost use Rattle.ndc_model.specs.Lines.{act_step, worlds_of};
ghost use Rattle.ndc_model.specs.World.{World};

/// Every well-formed line keeps a world as it should be, with one line more, where writing does.
pub fn every_line_keeps_worlds_reached()
    ensures { (header : Head) (lines : ℕ) (line : Asked) (w : World) → IsWellFormedHeader header
        → IsWellFormedAct header line → lines < 100000 → WritingKeeps header lines
        → IsReached header lines w
        → IsReached header (lines + 1) (act_step header line w).world }
{}

/// Every world of a well-formed script is as it should be after some number of lines, at most 100,000, where writing
/// keeps worlds so after each number of lines below that.
pub fn every_world_is_reached()
    ensures { (script : Whole) → IsWellFormed script
        → ((lines : ℕ) → lines < 100000 → WritingKeeps script.header lines)
        → AllByRecursion (IsReachedSometime script.header) (worlds_of script) }
{}
