// What holds of all dump texts.
ghost use Rattle.std.specs.Prelude.{◌≡◌, ◌↔◌, ℕ, List, Ok};
ghost use Rattle.std.specs.List.{AllByRecursion};
ghost use Rattle.ndc_event.specs.declared.batch.Batch.{Batch};
ghost use Rattle.ndc_event.specs.declared.name.Name.{Name};
ghost use Rattle.ndc_model_sets.specs.Sound.{IsSound};
ghost use Rattle.ndc_model_sets.specs.View.{view_of};
ghost use Rattle.ndc_text.specs.Ranges.{InRange};
ghost use Rattle.ndc_text.specs.Views.{dump_text};
ghost use Rattle.ndc_text.specs.declared.form.TextForm.TheVariants.{Two};
ghost use Rattle.ndc_dump.specs.declared.dump.Dump.{Dump as Read};
ghost use Rattle.ndc_dump_causes.specs.Causes.{sound_or};
ghost use Rattle.ndc_text.specs.Bare.{bare_text};
ghost use Rattle.ndc_dump.specs.Bare.{bare_dump_of};
ghost use Rattle.ndc_dump.specs.Frame.{IsHeaded};
ghost use Rattle.ndc_dump_causes.specs.Given.{AreRead};
ghost use Rattle.ndc_dump.specs.Lines.{lines_of};
ghost use Rattle.ndc_dump.specs.Printed.{CanBeDumped};
ghost use Rattle.ndc_dump.specs.Read.{dump_of};

/// Two sets of batches whose numbers are in range have one dump text exactly where they are equal.
pub fn equal_dumps_are_of_equal_sets()
    ensures { (domain workflow : Name) (one two : List Batch) → AllByRecursion InRange one
        → AllByRecursion InRange two
        → (dump_text domain workflow (view_of one) ≡ dump_text domain workflow (view_of two))
        ↔ (one ≡ two) }
{}

/// Batches that were read line by line and that none of the causes over the set holds of are a sound set.
pub fn a_set_without_a_cause_is_sound()
    ensures { (batches : List Batch) → AreRead batches → sound_or batches ≡ Ok tt
        → IsSound batches }
{}

/// What is printed of a sound set that is not empty, whose batches are of the domain and workflow and in range, is read
/// as a dump of that set.
pub fn what_is_printed_is_read()
    ensures { (domain workflow : Name) (batches : List Batch) → CanBeDumped domain workflow batches
        → dump_of (dump_text domain workflow (view_of batches))
        ≡ Ok (record { domain = domain; workflow = workflow; view = view_of batches }) }
{}

/// Bytes that are read as a dump, in whatever form, represent such a set; what is printed of it is read as the same
/// dump.
pub fn what_is_read_can_be_printed()
    ensures set { (bytes : List ℕ) (dump : Read) → dump_of bytes ≡ Ok dump
        → CanBeDumped dump.domain dump.workflow dump.view.batches }
    ensures again { (bytes : List ℕ) (dump : Read) → dump_of bytes ≡ Ok dump
        → dump_of (dump_text dump.domain dump.workflow dump.view) ≡ Ok dump }
{}

/// Bytes whose first line says the form with carriers are read only where they are what is printed of the set.
pub fn only_what_is_printed_is_read()
    ensures { (bytes : List ℕ) (dump : Read) → IsHeaded Two (lines_of bytes)
        → dump_of bytes ≡ Ok dump
        → bytes ≡ dump_text dump.domain dump.workflow (view_of dump.view.batches) }
{}

/// The heading and the batches of a sound set that is not empty, whose batches are of the domain and workflow and in
/// range, are read as the dump of that set.
pub fn bare_batches_are_read()
    ensures { (domain workflow : Name) (batches : List Batch) → CanBeDumped domain workflow batches
        → bare_dump_of (bare_text domain workflow batches)
        ≡ Ok (record { domain = domain; workflow = workflow; view = view_of batches }) }
{}

/// Bytes that are read as a dump of batches alone represent such a set, and what is printed of it is read as the same
/// dump.
pub fn what_is_read_bare_can_be_printed()
    ensures set { (bytes : List ℕ) (dump : Read) → bare_dump_of bytes ≡ Ok dump
        → CanBeDumped dump.domain dump.workflow dump.view.batches }
    ensures again { (bytes : List ℕ) (dump : Read) → bare_dump_of bytes ≡ Ok dump
        → dump_of (dump_text dump.domain dump.workflow dump.view) ≡ Ok dump }
{}
