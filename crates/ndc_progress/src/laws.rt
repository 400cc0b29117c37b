ghost use Rattle.std.specs.Prelude.{◌≡◌, List};
ghost use Rattle.ndc_progress.specs.declared.report.ActivityRef.{ActivityRef};
ghost use Rattle.ndc_progress.specs.declared.report.Report.{Report};
ghost use Rattle.ndc_progress.specs.Keyed.{AreOnce};
ghost use Rattle.ndc_progress.specs.Laws.{AllAgree};
ghost use Rattle.ndc_progress.specs.Reports.{greatest_of, held, merged};

/// Of the greatest reports of all that were told or taken over, the same is held of each activity as of all of them.
#[tactic(auto, using(crate::proofs::OrderLemmas::held_greatest))]
pub fn the_greatest_reports_are_held()
    ensures { (activity : ActivityRef) (reports : List Report) → held activity (greatest_of reports)
        ≡ held activity reports }
{}

/// Merging twice is merging once.
#[tactic(auto, using(crate::proofs::OrderLemmas::merged_twice))]
pub fn merging_twice_is_merging_once()
    ensures { (own others : List Report) → merged (merged own others) others ≡ merged own others }
{}

/// Two merges hold the same of each activity in either order, where equal activity, version and beat mean equal reports.
#[tactic(auto, using(crate::proofs::OrderLemmas::merged_either_way))]
pub fn the_order_of_merges_does_not_matter()
    ensures { (activity : ActivityRef) (own one two : List Report) → AreOnce own → AllAgree one two
        → held activity (merged (merged own one) two)
        ≡ held activity (merged (merged own two) one) }
{}
