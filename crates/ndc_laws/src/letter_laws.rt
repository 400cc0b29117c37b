// Damaged messages, as laws.
ghost use Rattle.std.specs.List.{AllByRecursion};
ghost use Rattle.std.specs.Prelude.{◌≡◌, ℕ, ◌<◌, ◌≤◌, length, slice_get, [], ◌∷◌, ◌++◌, codes, Some};
ghost use Rattle.ndc_script_types.specs.WellFormed.{AreTwoClusters, IsCluster, IsWellFormedHeader};
ghost use Rattle.ndc_script_types.specs.declared.script.Act.TheVariants as act;
ghost use Rattle.ndc_script_types.specs.declared.script.Header.{Header as Head};
ghost use Rattle.ndc_model_cells.specs.declared.message.Message.{Message as Sent};
ghost use Rattle.ndc_domain.specs.declared.clusters.ClusterNo.{ClusterNo as Number};
ghost use Rattle.ndc_laws.specs.Promised.{HasArrivedFor};
ghost use Rattle.ndc_letters.specs.Letters.{letter_of};
ghost use Rattle.ndc_model.specs.Facts.{IsReached};
ghost use Rattle.ndc_model.specs.Letters.{with_letters};
ghost use Rattle.ndc_model.specs.Lines.{act_step};
ghost use Rattle.ndc_model.specs.Steps.{answered};
ghost use Rattle.ndc_model.specs.Texts.{ok};
ghost use Rattle.ndc_model.specs.World.{World, cluster_at, flight_at};
ghost use Rattle.ndc_text.specs.Text.{batch_text};

/// A message in flight that comes damaged is set aside exactly where it is cut: the line answers `ok aside` where the cut
/// is below the length of its batch's text, and leaves the world as `lose` of that place does, with one letter more; else it
/// answers `ok whole` and changes nothing.
pub fn a_damaged_message_is_lost_and_set_aside_exactly_where_it_is_cut()
    ensures aside { (header : Head) (lines : ℕ) (w : World) (reader source : Number)
        (shard place cut : ℕ) (sent : Sent) → IsReached header lines w
        → AreTwoClusters header reader source → shard < header.shards
        → slice_get (flight_at reader source shard w) place ≡ Some sent
        → cut < length (batch_text sent.batch)
        → act_step header (act.Damage reader source shard place cut) w
        ≡ answered (with_letters reader
        ((cluster_at reader w).letters ++ letter_of source cut sent.batch ∷ [])
        (act_step header (act.Lose reader source shard place) w).world) (ok
        (codes "aside" ∷ [])) }
    ensures whole { (header : Head) (lines : ℕ) (w : World) (reader source : Number)
        (shard place cut : ℕ) (sent : Sent) → IsReached header lines w
        → AreTwoClusters header reader source → shard < header.shards
        → slice_get (flight_at reader source shard w) place ≡ Some sent
        → length (batch_text sent.batch) ≤ cut
        → act_step header (act.Damage reader source shard place cut) w
        ≡ answered w (ok (codes "whole" ∷ [])) }
{}

/// After `mergeletters` the batch of each letter that the cluster had has arrived there.
pub fn behind_mergeletters_the_batch_of_each_letter_has_arrived()
    ensures { (header : Head) (lines : ℕ) (w : World) (cluster : Number) → IsWellFormedHeader header
        → IsReached header lines w → IsCluster header cluster
        → AllByRecursion (HasArrivedFor header cluster
        (act_step header (act.MergeLetters cluster) w).world) (cluster_at cluster w).letters }
{}

/// `purge` leaves all but the letters of its cluster as it was, and `letters` leaves all as it was.
pub fn purging_changes_letters_alone()
    ensures purge { (header : Head) (w : World) (cluster : Number)
        → (act_step header (act.Purge cluster) w).world ≡ with_letters cluster [] w }
    ensures letters { (header : Head) (w : World) (cluster : Number)
        → (act_step header (act.LettersOf cluster) w).world ≡ w }
{}
