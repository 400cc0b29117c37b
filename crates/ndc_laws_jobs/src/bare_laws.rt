// Worlds without progress reports, as laws.
ghost use Rattle.std.specs.Prelude.{◌≡◌, ℕ, false, List, [], ◌∷◌, decimal, slice_index_or, slice_set};
ghost use Rattle.std.specs.List.{AllByRecursion};
ghost use Rattle.ndc_script_types.specs.declared.script.Act.{Act as Asked};
ghost use Rattle.ndc_script_types.specs.declared.script.Header.{Header as Head};
ghost use Rattle.ndc_script_types.specs.declared.script.Line.{Line as Script};
ghost use Rattle.ndc_model.specs.Bare.{bare, bare_step, is_on_reports};
ghost use Rattle.ndc_model.specs.Reporting.{shown_of, told_at, told_by};
ghost use Rattle.ndc_model.specs.Standing.{AreLeftBy, IsLeftBy, StandFor, reports_of};
ghost use Rattle.ndc_domain.specs.declared.clusters.ClusterNo.{ClusterNo as Number};
ghost use Rattle.ndc_event.specs.declared.name.Name.{Name as Text};
ghost use Rattle.ndc_model.specs.Facts.{IsReached};
ghost use Rattle.ndc_model.specs.Lines.{act_step};
ghost use Rattle.ndc_model.specs.Progress.{beat_step, progress_answer, sync_step};
ghost use Rattle.ndc_model.specs.Reading.{learned_at};
ghost use Rattle.ndc_model.specs.Texts.{ok};
ghost use Rattle.ndc_model.specs.World.{World};
ghost use Rattle.ndc_progress.specs.Reports.{merge_count, merged};
ghost use Rattle.ndc_progress.specs.declared.report.Report.{Report as Told};

/// A line that is not on progress reports does and answers the same in a world without them.
pub fn other_lines_do_not_look_at_reports()
    ensures { (header : Head) (line : Asked) (w : World) → is_on_reports line ≡ false
        → act_step header line (bare w) ≡ bare_step (act_step header line w) }
{}

/// A world that is as it should be is so without its progress reports.
pub fn worlds_stay_reached_without_reports()
    ensures { (header : Head) (lines : ℕ) (w : World) → IsReached header lines w
        → IsReached header lines (bare w) }
{}

/// A line that is not on progress reports leaves those of each cluster as they were.
pub fn other_lines_leave_reports()
    ensures { (header : Head) (line : Asked) (w : World) → is_on_reports line ≡ false
        → reports_of (act_step header line w).world ≡ reports_of w }
{}

/// Clusters without progress reports, with the greatest report of each activity beside them, do what the clusters do for
/// which they stand: lines that are not on reports leave the reports as they were.
pub fn what_stands_for_a_world_does_the_same()
    ensures line { (v : World) (reports : List (List Told)) (w : World) → StandFor v reports w
        → (header : Head) (line : Asked) → is_on_reports line ≡ false
        → IsLeftBy (act_step header line w) (act_step header line v).world reports (act_step header
        line v).answer (act_step header line v).seen }
    ensures lines { (header : Head) (lines : List Script) (v : World) (reports : List (List Told))
        (w : World) → AllByRecursion (λ line. is_on_reports line.act ≡ false) lines
        → StandFor v reports w
        → AreLeftBy header lines v reports w }
{}

/// The greatest report of each activity is all that lines on reports need.
pub fn the_greatest_reports_are_enough()
    ensures told { (v : World) (reports : List (List Told)) (w : World) → StandFor v reports w
        → (header : Head) (cluster : Number) (domain workflow id details : Text)
        → IsLeftBy (beat_step header cluster domain workflow id details w) v
        (slice_set reports cluster.number
        (told_by details (slice_index_or reports cluster.number [])
        (told_at header cluster domain workflow id v)).reports)
        (told_by details (slice_index_or reports cluster.number [])
        (told_at header cluster domain workflow id v)).answer [] }
    ensures shown { (v : World) (reports : List (List Told)) (w : World) → StandFor v reports w
        → (header : Head) (cluster : Number) (domain workflow id : Text)
        → shown_of domain workflow id (slice_index_or reports cluster.number []) (learned_at header
        cluster domain workflow v) ≡ progress_answer header cluster domain workflow id w }
    ensures taken_over { (v : World) (reports : List (List Told)) (w : World) → StandFor v reports w
        → (to from : Number)
        → IsLeftBy (sync_step to from w) v (slice_set reports to.number
        (merged (slice_index_or reports to.number []) (slice_index_or reports from.number [])))
        (ok (decimal (merge_count (slice_index_or reports to.number [])
        (slice_index_or reports from.number [])) ∷ [])) [] }
{}
