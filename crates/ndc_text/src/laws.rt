// What holds of all batch texts.
ghost use Rattle.std.specs.Prelude.{◌≡◌, ◌↔◌, ◌++◌, ℕ, List, [], None, Some, Ok, Err};
ghost use Rattle.ndc_event.specs.Batch.{fault_of};
ghost use Rattle.ndc_event.specs.declared.batch.Batch.{Batch};
ghost use Rattle.ndc_event.specs.declared.batch.BatchFault.{BatchFault};
ghost use Rattle.ndc_event.specs.declared.key.BatchKey.{BatchKey};
ghost use Rattle.ndc_text.specs.Ranges.{InRange};
ghost use Rattle.ndc_text.specs.Read.{read_of};
ghost use Rattle.ndc_text.specs.Text.{batch_text};
ghost use Rattle.ndc_text.specs.declared.error.TextError.TheVariants.{ExtraKey, Check};
ghost use Rattle.ndc_text.specs.declared.form.TextForm.{TextForm};
ghost use Rattle.ndc_text.specs.declared.form.TextForm.TheVariants.{One, Two};

/// A text is read as a batch exactly where it is the text of that batch, whose numbers are in range and which
/// has no fault.
pub fn read_where_printed()
    ensures { (b : Batch) (bytes : List ℕ) → (read_of Two bytes ≡ Ok b)
        ↔ (InRange b × (bytes ≡ batch_text b) × (fault_of b ≡ None)) }
{}

/// The same of texts in the form without carriers: they are those of the batches without a carrier.
pub fn read_bare_where_printed()
    ensures { (b : Batch) (bytes : List ℕ) → (read_of One bytes ≡ Ok b)
        ↔ ((read_of Two bytes ≡ Ok b) × (b.carrier ≡ None)) }
{}

/// A text is refused for a fault exactly where it is the text of a batch in range that has this fault, as its
/// first.
pub fn refused_for_a_fault()
    ensures { (bytes : List ℕ) (fault : BatchFault) → (read_of Two bytes ≡ Err (Check fault))
        ↔ ((b : Batch) × (InRange b × (bytes ≡ batch_text b) × (fault_of b ≡ Some fault))) }
{}

/// The text of a batch with a carrier has a key too many in the form without carriers.
pub fn carrier_is_extra_without_carriers()
    ensures { (b : Batch) (carrier : BatchKey) → InRange b → b.carrier ≡ Some carrier
        → read_of One (batch_text b) ≡ Err ExtraKey }
{}

/// No batch has two texts: two texts that are read as one batch are one, in whatever form they are read.
pub fn one_text_of_a_batch()
    ensures { (b : Batch) (form other : TextForm) (bytes more : List ℕ) → read_of form bytes ≡ Ok b
        → read_of other more ≡ Ok b → bytes ≡ more }
{}

/// No text is that of two batches.
pub fn one_batch_of_a_text()
    ensures { (b c : Batch) → InRange b → InRange c → batch_text b ≡ batch_text c → b ≡ c }
{}

/// No proper prefix of the text of a batch is the text of a batch.
pub fn no_text_goes_on()
    ensures { (b c : Batch) (rest : List ℕ) → InRange b → InRange c
        → batch_text b ++ rest ≡ batch_text c → rest ≡ [] }
{}
