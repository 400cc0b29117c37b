// Versions of domain records in fair worlds, as laws.
ghost use Rattle.std.specs.List.{AllByRecursion};
ghost use Rattle.std.specs.Prelude.{ℕ, ◌+◌, ◌≤◌, List, ◌++◌, length};
ghost use Rattle.ndc_script_types.specs.WellFormed.{IsWellFormed, IsWellFormedAct, IsWellFormedHeader};
ghost use Rattle.ndc_script_types.specs.declared.script.Act.{Act as Asked};
ghost use Rattle.ndc_script_types.specs.declared.script.Header.{Header as Head};
ghost use Rattle.ndc_script_types.specs.declared.script.Line.{Line as ScriptLine};
ghost use Rattle.ndc_laws.specs.Grown.{IsWellFormedLine, TablesGrow, world_after};
ghost use Rattle.ndc_laws.specs.Promised.{world_before};
ghost use Rattle.ndc_model.specs.Facts.{IsReached};
ghost use Rattle.ndc_model.specs.Laws.{script_of};
ghost use Rattle.ndc_model.specs.Lines.{act_step};
ghost use Rattle.ndc_model.specs.World.{World};

/// Every well-formed line lets each cluster's table grow, in a reached world: each record is there afterwards, with no
/// lower version and no fewer members.
pub fn every_line_lets_tables_grow()
    ensures { (header : Head) (lines : ℕ) (line : Asked) (w : World) → IsWellFormedHeader header
        → IsWellFormedAct header line → IsReached header lines w
        → TablesGrow w (act_step header line w).world }
{}

/// Further well-formed lines, run one after the other from a reached world on, let each cluster's table grow, while no
/// more than 100,000 lines have run in all. (A burst among them does nothing: the lines in it run on their own.)
pub fn further_lines_let_tables_grow()
    ensures { (header : Head) (lines : ℕ) (more : List ScriptLine) (w : World)
        → IsWellFormedHeader header → AllByRecursion (IsWellFormedLine header) more
        → lines + length more ≤ 100000 → IsReached header lines w
        → TablesGrow w (world_after header more w) }
{}

/// In a well-formed script each cluster's table has grown from the world after some of its lines to the one after more
/// of them.
pub fn tables_grow_throughout_a_script()
    ensures { (header : Head) (front back : List ScriptLine)
        → IsWellFormed (script_of header (front ++ back))
        → TablesGrow (world_before header front) (world_before header (front ++ back)) }
{}
