// What the numbers mean that sum up a world, and whether clusters come to be the same, as laws.
ghost use Rattle.std.specs.Prelude.{◌≡◌, ℕ, ◌+◌, ◌≤◌, true, length};
ghost use Rattle.ndc_script_types.specs.WellFormed.{IsWellFormedHeader};
ghost use Rattle.ndc_script_types.specs.declared.script.Header.{Header as Head};
ghost use Rattle.ndc_laws_reached.specs.Settled.{IsSettled};
ghost use Rattle.ndc_laws_program.specs.Shared.{SharesAll};
ghost use Rattle.ndc_laws_program.specs.Summed.{SumsUp};
ghost use Rattle.ndc_laws.specs.Promised.{world_before};
ghost use Rattle.ndc_model.specs.Facts.{IsReached};
ghost use Rattle.ndc_model.specs.Lines.{ran_of};
ghost use Rattle.ndc_model.specs.World.{World};
ghost use Rattle.ndc_script.specs.Generate.{generated_header, generated_lines, generated_script};
ghost use Rattle.ndc_world_queries.specs.Summaries.{totals_of};

/// In a world that lines lead to the numbers of its summary mean what they say: the batches are all that any cluster has
/// written, each once; the workflows are those of which the first cluster has learned a batch, and the branches those of
/// all their runs there; and clusters are said to be the same exactly where all hold one table and have learned the same of
/// each workflow.
pub fn the_numbers_of_a_summary_mean_what_they_say()
    ensures { (header : Head) (lines : ℕ) (w : World) → IsWellFormedHeader header → IsReached header lines w → SumsUp header w (totals_of header w) }
{}

/// A generated script has an answer for each line that was asked for, and seven more: for the lines that register its two
/// domains, tell the two other clusters of them and start a workflow in each, and for the settlement.
pub fn a_generated_script_has_seven_answers_more()
    ensures { (count seed : ℕ) → length (ran_of (generated_script count seed)) ≡ count + 7 }
{}

/// In a settled world in which each record of a domain names all clusters, these are the same: they hold one table, and
/// have learned the same of each workflow.
pub fn settled_clusters_that_share_all_domains_are_the_same()
    ensures { (header : Head) (lines : ℕ) (w : World) → IsReached header lines w → IsSettled header w → SharesAll header w → (totals_of header w).same ≡ true }
{}

/// After each generated script the clusters are the same.
pub fn generated_scripts_leave_all_clusters_the_same()
    ensures { (count seed : ℕ) → count ≤ 99000 → (totals_of generated_header (world_before generated_header (generated_lines count seed))).same ≡ true }
{}
