//! What is told of a workflow of which an input has dumps.
ghost use Rattle.std.specs.Prelude.{◌≡◌, ◌++◌, IfOk, OnOk, Some, None};
ghost use Rattle.std.specs.List.{flat_map};
ghost use Rattle.ndc_dump.specs.Bare.{bare_dump_of};
ghost use Rattle.ndc_dump.specs.Faults.{key_cause_name};
ghost use Rattle.ndc_dump_causes.specs.declared.error.DumpError.TheVariants as error;
ghost use Rattle.ndc_text.specs.Bare.{bare_text};
ghost use Rattle.ndc_explain_top.specs.Sections.{cause_line, cluster_line, count_of, faulty_line, has_mark, leaves, section_by, section_of, sound_section, sound_text, taking_shown, takings_shown, unsound_section, unsound_text};

use crate::asked::{Form, Request};
use crate::rows::Group;
use ndc_dump::{Dump, DumpError, KeyCause, bare_text, dump_text, read_bare_dump};
use ndc_event::{BatchKey, Name, OutOfMemory};
use ndc_explain::piece::{Piece, push_pieces};
use ndc_explain::{Found, findings, has_forks, has_zombies, push_explained};
use ndc_explain_picture::{push_picture, push_tree_picture};
use ndc_explain_union::Taken;
use ndc_text::line::push_key;
use std::alloc::{AllocError, Global};
use std::marker::Model;

/// What is counted of workflows.
#[derive(Clone, Copy, Debug, PartialEq, Eq)]
pub(crate) enum Mark {
    /// A run has several branches.
    Forked,
    /// A dump lacks a batch, a cluster has no dump, or a key has two contents.
    Differing,
    /// A run is a zombie.
    Zombies,
    /// Something is to be driven again.
    Lost,
    /// A signal waits.
    Waiting,
    /// The dumps make no sound set together.
    Unsound,
}

/// Which of these a workflow has.
#[derive(Clone, Copy, Debug, PartialEq, Eq)]
pub(crate) struct Marks {
    forked: bool,
    differing: bool,
    zombies: bool,
    lost: bool,
    waiting: bool,
    unsound: bool,
}

impl Marks {
    ghost use Rattle.std.specs.Prelude.{◌≡◌};
    ghost use Rattle.ndc_explain_top.specs.Sections.{has_mark, leaves};

    /// Whether the workflow has a mark.
    pub(crate) fn has(self, mark: Mark) -> bool
        ensures { result ≡ has_mark mark self }
    {
        match mark {
            Mark::Forked => self.forked,
            Mark::Differing => self.differing,
            Mark::Zombies => self.zombies,
            Mark::Lost => self.lost,
            Mark::Waiting => self.waiting,
            Mark::Unsound => self.unsound,
        }
    }

    /// Whether something is to be driven again, a signal waits, or the dumps make no sound set.
    pub(crate) fn leaves(self) -> bool
        ensures { result ≡ leaves self }
    {
        self.lost || (self.waiting || self.unsound)
    }
}

/// What is told of a workflow, and what is counted of it.
#[derive(Drop)]
pub(crate) struct Section {
    text: Vec<u8>,
    /// What is counted of it.
    pub(crate) marks: Marks,
}

impl Model for Section {
    ghost use Rattle.ndc_explain_top.specs.Sections.{Sectioned};

    ghost Value = { Sectioned };

    ghost view = { λ section. record { text = section.text.items; marks = section.marks } };
}

impl Section {
    ghost use Rattle.std.specs.Prelude.{◌≡◌};

    /// What is told.
    pub(crate) fn text(&self) -> &[u8]
        ensures { result.now ≡ self.now.text }
    {
        self.text.as_slice()
    }
}

/// Appends the line that names the cluster of a dump, where one was named.
fn push_cluster(text: &mut Vec<u8>, cluster: &Option<Name>) -> Result<(), OutOfMemory>
    ensures { OnOk result (text.new.items ≡ text.old.items ++ cluster_line cluster.now) }
{
    match cluster {
        None => Ok(()),
        Some(name) => {
            text.extend_from_slice(b"cluster ")?;
            text.extend_from_slice(name.as_bytes())?;
            text.extend_from_slice(b"\n")
        }
    }
}

/// Appends a dump with its view, after its cluster.
#[tactic(auto, unfolding(crate::specs::Sections::taking_shown))]
fn push_shown(alloc: Global, text: &mut Vec<u8>, taken: &Taken) -> Result<(), OutOfMemory>
    ensures { OnOk result (text.new.items ≡ text.old.items ++ taking_shown taken.now) }
{
    push_cluster(text, &taken.spot().cluster)?;
    let dump = taken.dump();
    let shown = dump_text(alloc, &dump.domain, &dump.workflow, &dump.view)?;
    text.extend_from_slice(shown.as_slice())
}

/// Appends dumps with their views.
fn push_each_shown(alloc: Global, text: &mut Vec<u8>, dumps: &[Taken]) -> Result<(), OutOfMemory>
    ensures { OnOk result (text.new.items ≡ text.old.items ++ takings_shown dumps.now) }
{
    for taken in dumps {
        push_shown(alloc, text, taken)?;
    }
    Ok(())
}

/// Appends a workflow whose dumps make this one together.
fn push_sound(
    alloc: Global,
    text: &mut Vec<u8>,
    request: &Request,
    group: &Group,
    dump: &Dump,
    found: &Found,
) -> Result<(), OutOfMemory>
    ensures { OnOk result (text.new.items ≡ text.old.items ++ sound_text request.now.form request.now.clusters request.now.all group.now dump.now found.now) }
{
    match request.form {
        Form::Text => {
            group.push_rows(alloc, text, &request.clusters)?;
            push_explained(alloc, text, &request.clusters, request.all, dump, found)
        }
        Form::Picture => push_picture(alloc, text, &request.clusters, dump),
        Form::TreePicture => push_tree_picture(alloc, text, &request.clusters, dump),
        Form::View => push_each_shown(alloc, text, group.dumps()),
    }
}

/// The word for a cause.
fn key_cause_name(cause: KeyCause) -> &'static str
    ensures { result.now ≡ key_cause_name cause }
{
    match cause {
        KeyCause::MissingParent => "MissingParent",
        KeyCause::NotWellFormed => "NotWellFormed",
        KeyCause::SplitVersion => "SplitVersion",
        KeyCause::OriginTwice => "OriginTwice",
        KeyCause::OriginUnfit => "OriginUnfit",
        KeyCause::BadReplay => "BadReplay",
        KeyCause::CarrierUnfit => "CarrierUnfit",
    }
}

/// Appends the line of a batch that does not fit the others.
fn push_unfit(text: &mut Vec<u8>, key: BatchKey, cause: KeyCause) -> Result<(), OutOfMemory>
    ensures { OnOk result (text.new.items ≡ text.old.items ++ cause_line (Some (error.Key key cause))) }
{
    text.extend_from_slice(b"unsound: batch ")?;
    push_key(text, key)?;
    text.extend_from_slice(b": ")?;
    text.extend_from_slice(key_cause_name(cause).as_bytes())?;
    text.extend_from_slice(b"\n")
}

/// Appends the line of a line that is not a batch's.
#[tactic(auto, unfolding(crate::specs::Sections::faulty_line))]
fn push_faulty(text: &mut Vec<u8>, line: u64) -> Result<(), OutOfMemory>
    ensures { OnOk result (text.new.items ≡ text.old.items ++ faulty_line line) }
{
    push_pieces(
        text,
        &[
            Piece::Plain("unsound: line "),
            Piece::Number(line),
            Piece::Plain("\n"),
        ],
    )
}

/// Appends the line that says why dumps make no sound set together.
fn push_cause(text: &mut Vec<u8>, cause: Option<DumpError>) -> Result<(), OutOfMemory>
    ensures { OnOk result (text.new.items ≡ text.old.items ++ cause_line cause) }
{
    match cause {
        None => text.extend_from_slice(b"unsound: a key has two contents\n"),
        Some(DumpError::Line { line, .. }) => push_faulty(text, line),
        Some(DumpError::Key { key, cause }) => push_unfit(text, key, cause),
        Some(DumpError::Memory) => Ok(()),
    }
}

/// Appends a workflow whose dumps make no sound set together.
fn push_unsound(
    alloc: Global,
    text: &mut Vec<u8>,
    request: &Request,
    group: &Group,
    cause: Option<DumpError>,
) -> Result<(), OutOfMemory>
    ensures { OnOk result (text.new.items ≡ text.old.items ++ unsound_text request.now.form request.now.clusters group.now cause) }
{
    match request.form {
        Form::Text | Form::Picture | Form::TreePicture => {
            group.push_rows(alloc, text, &request.clusters)?;
            push_cause(text, cause)
        }
        Form::View => push_each_shown(alloc, text, group.dumps()),
    }
}

/// A workflow whose dumps make this one together.
#[tactic(auto, unfolding(crate::specs::Sections::sound_section))]
fn sound_section(
    alloc: Global,
    request: &Request,
    group: &Group,
    dump: &Dump,
) -> Result<Section, OutOfMemory>
    ensures { IfOk result (λ section. section ≡ sound_section request.now group.now dump.now) }
{
    let found = findings(alloc, &dump.view)?;
    let mut text = Vec::new(alloc);
    push_sound(alloc, &mut text, request, group, dump, &found)?;
    Ok(Section {
        text,
        marks: Marks {
            forked: has_forks(&dump.view),
            differing: group.are_short(),
            zombies: has_zombies(&dump.view),
            lost: found.has_lost(),
            waiting: found.has_waiting(),
            unsound: false,
        },
    })
}

/// A workflow whose dumps make no sound set together.
#[tactic(auto, unfolding(crate::specs::Sections::unsound_section))]
fn unsound_section(
    alloc: Global,
    request: &Request,
    group: &Group,
    cause: Option<DumpError>,
) -> Result<Section, OutOfMemory>
    ensures { IfOk result (λ section. section ≡ unsound_section request.now group.now cause) }
{
    let mut text = Vec::new(alloc);
    push_unsound(alloc, &mut text, request, group, cause)?;
    Ok(Section {
        text,
        marks: Marks {
            forked: false,
            differing: true,
            zombies: false,
            lost: false,
            waiting: false,
            unsound: true,
        },
    })
}

/// A workflow by what is read of the batches of all its dumps.
fn section_of_several(
    alloc: Global,
    request: &Request,
    group: &Group,
) -> Result<Section, OutOfMemory>
    ensures { IfOk result (λ section. section ≡ section_by request.now group.now (bare_dump_of (bare_text group.now.workflow.domain group.now.workflow.workflow group.now.union))) }
{
    let workflow = group.workflow();
    let text = bare_text(alloc, &workflow.domain, &workflow.workflow, group.union())?;
    match read_bare_dump(alloc, text.as_slice()) {
        Ok(dump) => sound_section(alloc, request, group, &dump),
        Err(DumpError::Memory) => Err(AllocError),
        Err(error) => unsound_section(alloc, request, group, Some(error)),
    }
}

/// What is told of a workflow.
#[tactic(auto, unfolding(crate::specs::Sections::section_of))]
pub(crate) fn section_of(
    alloc: Global,
    request: &Request,
    group: &Group,
) -> Result<Section, OutOfMemory>
    ensures { IfOk result (λ section. section ≡ section_of request.now group.now) }
{
    if !group.are_of_one(alloc)? {
        return unsound_section(alloc, request, group, None);
    }
    match group.dumps() {
        [taken] => sound_section(alloc, request, group, taken.dump()),
        _ => section_of_several(alloc, request, group),
    }
}

/// How many of the workflows have a mark.
pub(crate) fn count_of(mark: Mark, sections: &[Section]) -> usize
    ensures { result ≡ count_of mark sections.now }
{
    let mut count = 0;
    for section in sections {
        if section.marks.has(mark) {
            count += 1;
        }
    }
    count
}
