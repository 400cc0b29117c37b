// One writer for each version, as laws.
ghost use Rattle.std.specs.Prelude.{ℕ, ◌<◌, List};
ghost use Rattle.ndc_script_types.specs.WellFormed.{IsCluster};
ghost use Rattle.ndc_script_types.specs.declared.script.Header.{Header as Head};
ghost use Rattle.ndc_domain.specs.declared.clusters.ClusterNo.{ClusterNo as Number};
ghost use Rattle.ndc_event.specs.declared.batch.Batch.{Batch};
ghost use Rattle.ndc_event.specs.declared.name.Name.{Name as NameValue};
ghost use Rattle.ndc_laws_reached.specs.OneWriter.{EachHasOneCurrent};
ghost use Rattle.ndc_model.specs.Facts.{IsReached};
ghost use Rattle.ndc_model.specs.Fair.{written_of};
ghost use Rattle.ndc_model.specs.Reading.{learned_at};
ghost use Rattle.ndc_model.specs.World.{World};
ghost use Rattle.ndc_model_sets.specs.Learned.{IsClosed, IsPart};
ghost use Rattle.ndc_model_sets.specs.Sets.{IsSet};
ghost use Rattle.ndc_model_sets.specs.Sound.{IsSound, OriginsDiffer, VersionsAreChains};
ghost use Rattle.ndc_laws_cells.specs.Past.{EventsAreOne};

/// All batches of one run and one version form one chain, whichever clusters wrote: of two of them, the one with the
/// smaller task is on the path to the other.
pub fn batches_of_one_version_form_one_chain()
    ensures { (header : Head) (lines : ℕ) (w : World) (domain workflow : NameValue)
        → IsReached header lines w → VersionsAreChains (written_of header domain workflow w) }
{}

/// An event that is named by its run, id and version has one content and one past, whichever clusters wrote it.
pub fn an_event_is_named_once()
    ensures { (header : Head) (lines : ℕ) (w : World) (domain workflow : NameValue)
        → IsReached header lines w → EventsAreOne (written_of header domain workflow w) }
{}

/// In every closed part of what was written each run has exactly one branch of greatest last version, the current one.
pub fn each_closed_part_has_one_current_branch()
    ensures { (header : Head) (lines : ℕ) (w : World) (domain workflow : NameValue)
        (part : List Batch) → IsReached header lines w
        → IsSet part → IsClosed part → IsPart part (written_of header domain workflow w)
        → EachHasOneCurrent part }
{}

/// What a cluster has learned of a workflow is sound, and no origin stands twice on one of its paths.
pub fn what_clusters_learn_is_sound()
    ensures sound { (header : Head) (lines : ℕ) (w : World) (cluster : Number)
        (domain workflow : NameValue) → 0 < header.shards → IsCluster header cluster
        → IsReached header lines w
        → IsSound (learned_at header cluster domain workflow w) }
    ensures origins { (header : Head) (lines : ℕ) (w : World) (cluster : Number)
        (domain workflow : NameValue) → 0 < header.shards → IsCluster header cluster
        → IsReached header lines w
        → OriginsDiffer (learned_at header cluster domain workflow w) }
{}
