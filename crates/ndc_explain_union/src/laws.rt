//! Laws of what dumps have together. The functions do nothing: what each ensures is the law.
ghost use Rattle.std.specs.Prelude.{◌≡◌, ◌∷◌, List, Ok, Some};
ghost use Rattle.std.specs.List.{list_any};
ghost use Rattle.ndc_event.specs.declared.key.BatchKey.{BatchKey};
ghost use Rattle.ndc_dump.specs.Printed.{CanBeDumped};
ghost use Rattle.ndc_model_sets.specs.Learned.{has_key};
ghost use Rattle.ndc_model_sets.specs.View.{view_of};
ghost use Rattle.ndc_explain_union.specs.Takings.{Taking};
ghost use Rattle.ndc_explain_union.specs.Unions.{dump_of_union, united};
ghost use Rattle.ndc_explain_union.specs.declared.groups.WorkflowName.{WorkflowName};

/// The union has the keys that its dumps have, and no others.
pub fn a_union_has_what_its_dumps_have()
    ensures { (takings : List Taking) (key : BatchKey) → has_key (Some key) (united takings) ≡ list_any (λ taking. has_key (Some key) taking.dump.view.batches) takings }
{}

/// Where the batches of several dumps are a sound set of the workflow, with their numbers in range, what is explained of
/// them is the view of that set: so what is said of sound sets, and of views, is said of it.
pub fn a_sound_union_is_explained()
    ensures { (workflow : WorkflowName) (one two : Taking) (others : List Taking) → CanBeDumped workflow.domain workflow.workflow (united (one ∷ two ∷ others))
        → dump_of_union workflow (one ∷ two ∷ others) (united (one ∷ two ∷ others))
        ≡ Ok (record { domain = workflow.domain; workflow = workflow.workflow; view = view_of (united (one ∷ two ∷ others)) }) }
{}
