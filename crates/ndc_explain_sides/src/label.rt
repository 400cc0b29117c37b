//! Labels by which the events of two sides are matched.
ghost use Rattle.std.specs.Prelude.{◌≡◌, ◌++◌, IfOk, OnOk};
ghost use Rattle.ndc_explain_sides.specs.Subjects.{deed_label, label_of, scope_label, scope_text, subject_label};

use crate::names::id_of;
use crate::subject::sort_of;
use ndc_event::{EventKind, OutOfMemory, RunId};
use std::alloc::Global;
use std::hash::{Hash, Hasher};
use std::marker::Model;

/// What an event is about, or what happened in it, in a run or over all runs.
#[derive(Drop)]
pub(crate) struct Label {
    text: Vec<u8>,
}

impl Model for Label {
    ghost use Rattle.std.specs.Prelude.{List, ℕ};

    ghost Value = { List ℕ };

    ghost view = { λ label. label.text.items };
}

impl PartialEq for Label {
    ghost use Rattle.std.specs.Prelude.{nat_eq};
    ghost use Rattle.std.specs.Cmp.{partial_equiv_from_equiv};
    ghost use Rattle.std.specs.Cmp.Lexicographic.{pointwise, nat_list_eq_equiv};

    ghost eq = { λ one two. pointwise nat_eq one two };

    ghost laws = { partial_equiv_from_equiv nat_list_eq_equiv };

    fn eq(&self, other: &Label) -> bool {
        self.text.as_slice() == other.text.as_slice()
    }
}

impl Eq for Label {
    ghost use Rattle.std.specs.Cmp.Lexicographic.{nat_list_eq_equiv};

    ghost laws = { nat_list_eq_equiv };
}

impl Hash for Label {
    ghost use Rattle.std.specs.Hash as fed;
    ghost use Rattle.std.specs.Cmp.Rules.{hashing};
    ghost use Rattle.std.proofs.Common.{rules};

    ghost hash_input = { fed.slice fed.u8 };

    ghost respects_eq = { Prim.search (hashing, rules) };

    fn hash<H: Hasher>(&self, state: &mut H) {
        self.text.as_slice().hash(state);
    }
}

/// Appends a scope.
fn push_scope(alloc: Global, text: &mut Vec<u8>, scope: Option<RunId>) -> Result<(), OutOfMemory>
    ensures { OnOk result (text.new.items ≡ text.old.items ++ scope_text scope) }
{
    match scope {
        None => text.extend_from_slice(b"all"),
        Some(run) => text.extend_from_slice(run.text(alloc)?.as_bytes()),
    }
}

/// Words and an id in a scope.
fn label_of(
    alloc: Global,
    scope: Option<RunId>,
    words: &str,
    id: &[u8],
) -> Result<Label, OutOfMemory>
    ensures { IfOk result (λ label. label ≡ label_of scope words.now id.now) }
{
    let mut text = Vec::new(alloc);
    push_scope(alloc, &mut text, scope)?;
    text.extend_from_slice(b" ")?;
    text.extend_from_slice(words.as_bytes())?;
    text.extend_from_slice(b" ")?;
    text.extend_from_slice(id)?;
    Ok(Label { text })
}

/// A scope by itself.
pub(crate) fn scope_label(alloc: Global, scope: Option<RunId>) -> Result<Label, OutOfMemory>
    ensures { IfOk result (λ label. label ≡ scope_label scope) }
{
    label_of(alloc, scope, "", b"")
}

/// What an event of this kind is about.
pub(crate) fn subject_label(
    alloc: Global,
    scope: Option<RunId>,
    kind: &EventKind,
) -> Result<Label, OutOfMemory>
    ensures { IfOk result (λ label. label ≡ subject_label scope kind.now) }
{
    label_of(alloc, scope, sort_of(kind).word(), id_of(kind))
}

/// What happened in an event of this kind.
pub(crate) fn deed_label(
    alloc: Global,
    scope: Option<RunId>,
    kind: &EventKind,
) -> Result<Label, OutOfMemory>
    ensures { IfOk result (λ label. label ≡ deed_label scope kind.now) }
{
    label_of(alloc, scope, kind.name(), id_of(kind))
}
