// Damaged messages, as laws.
ghost use Rattle.std.specs.Prelude.{◌≡◌, ℕ, None, not, nat_lt, length};
ghost use Rattle.ndc_event.specs.Batch.{fault_of};
ghost use Rattle.ndc_event.specs.declared.batch.Batch.{Batch as Written};
ghost use Rattle.ndc_text.specs.Ranges.{InRange};
ghost use Rattle.ndc_text.specs.Text.{batch_text};
ghost use Rattle.ndc_domain.specs.declared.clusters.ClusterNo.{ClusterNo as Number};
ghost use Rattle.ndc_letters.specs.Letters.{is_whole, letter_of};

/// The first bytes of a message are read as the batch that it was exactly where none is missing: so a damaged
/// message is set aside exactly where it is cut.
#[tactic(auto, using(crate::proofs::LetterLemmas::whole_where_uncut))]
pub fn a_message_is_set_aside_where_it_is_cut()
    ensures { (source : Number) (b : Written) (cut : ℕ) → InRange b → fault_of b ≡ None
        → is_whole (letter_of source cut b) ≡ not (nat_lt cut (length (batch_text b))) }
{}
