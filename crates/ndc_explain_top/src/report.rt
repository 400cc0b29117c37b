//! What is told of an input.
ghost use Rattle.std.specs.Prelude.{◌≡◌, ◌++◌, IfOk, OnOk, slice_get};
ghost use Rattle.std.specs.List.{flat_map, list_any};
ghost use Rattle.ndc_event.specs.Outcome.{Gives};
ghost use Rattle.ndc_explain_union.specs.Parts.{parts_of};
ghost use Rattle.ndc_explain_top.specs.Report.{can_be_told, dumps_or, gap, has_summary, is_drawn, limit_of, report_alone, report_by, report_many, report_of, report_text, report_with, section_at, section_told, sections_of, summary_line};
ghost use Rattle.ndc_explain_top.specs.Sections.{leaves};
ghost use Rattle.ndc_explain_top.specs.declared.fault.Fault.TheVariants.{Memory};
ghost use Rattle.ndc_explain_union.specs.Takings.{dump_in, taken_of};

use crate::asked::{Form, Request};
use crate::fault::Fault;
use crate::rows::gathered;
use crate::section::{Mark, Section, count_of, section_of};
use crate::told::told;
use ndc_dump::{DumpError, MOST_BYTES};
use ndc_event::{Name, OutOfMemory};
use ndc_explain::findings;
use ndc_explain::piece::{Piece, push_pieces};
use ndc_explain_union::{
    Groups, Input, InputError, Part, Taken, dump_in, groups_of, parts_of, taken_of,
};
use std::alloc::Global;
use std::marker::Model;

/// How many bytes the input may have.
pub(crate) fn limit_of(request: &Request) -> usize
    ensures { result ≡ limit_of request.now }
{
    match request.limit {
        None => MOST_BYTES,
        Some(limit) => limit as usize,
    }
}

/// What is told.
#[derive(Drop)]
pub(crate) struct Report {
    text: Vec<u8>,
    /// Whether something is to be driven again, a signal waits, or dumps make no sound set.
    pub(crate) leaves: bool,
}

impl Model for Report {
    ghost use Rattle.ndc_explain_top.specs.Report.{Reported};

    ghost Value = { Reported };

    ghost view = { λ report. record { text = report.text.items; leaves = report.leaves } };
}

impl Report {
    ghost use Rattle.std.specs.Prelude.{◌≡◌};

    /// Its bytes.
    pub(crate) fn text(&self) -> &[u8]
        ensures { result.now ≡ self.now.text }
    {
        self.text.as_slice()
    }
}

/// What is told of one dump alone.
fn report_alone(alloc: Global, request: &Request, bytes: &[u8]) -> Result<Report, Fault>
    ensures { Gives Memory (λ report. report) result (report_alone request.now (dump_in request.now.bare bytes.now)) }
{
    let dump = match dump_in(alloc, request.bare, bytes) {
        Ok(dump) => dump,
        Err(DumpError::Line { line, cause }) => {
            return Err(Fault::DumpLine {
                spot: None,
                line,
                cause,
            });
        }
        Err(DumpError::Key { key, cause }) => {
            return Err(Fault::DumpBatch {
                spot: None,
                key,
                cause,
            });
        }
        Err(DumpError::Memory) => return Err(Fault::Memory),
    };
    let found = findings(alloc, &dump.view)?;
    let text = told(alloc, request, &dump, &found)?;
    Ok(Report {
        text,
        leaves: found.leaves_any(),
    })
}

/// The dumps, or the fault of the first that is not one.
fn dumps_of(alloc: Global, bare: bool, parts: &[Part]) -> Result<Vec<Taken>, Fault>
    ensures { Gives Memory (λ dumps. dumps.items) result (dumps_or (taken_of bare parts.now)) }
{
    match taken_of(alloc, bare, parts) {
        Ok(dumps) => Ok(dumps),
        Err(InputError::Line { spot, line, cause }) => Err(Fault::DumpLine {
            spot: Some(spot),
            line,
            cause,
        }),
        Err(InputError::Key { spot, key, cause }) => Err(Fault::DumpBatch {
            spot: Some(spot),
            key,
            cause,
        }),
        Err(InputError::Memory) => Err(Fault::Memory),
    }
}

/// Appends the workflow of the group at this place, where there is one.
fn push_section_at(
    alloc: Global,
    sections: &mut Vec<Section>,
    request: &Request,
    named: &[Name],
    groups: &Groups,
    place: usize,
) -> Result<(), OutOfMemory>
    ensures { OnOk result (sections.new.items ≡ sections.old.items ++ section_at request.now named.now (slice_get groups.now place)) }
{
    let Some((workflow, dumps)) = groups.get(place) else {
        return Ok(());
    };
    let group = gathered(alloc, named, workflow, dumps)?;
    sections.push(section_of(alloc, request, &group)?)?;
    Ok(())
}

/// The workflows, in the order of their first dumps.
fn sections_of(
    alloc: Global,
    request: &Request,
    named: &[Name],
    groups: &Groups,
) -> Result<Vec<Section>, OutOfMemory>
    ensures { IfOk result (λ sections. sections.items ≡ sections_of request.now named.now groups.now) }
{
    let mut sections = Vec::new(alloc);
    for place in 0..groups.count() {
        push_section_at(alloc, &mut sections, request, named, groups, place)?;
    }
    Ok(sections)
}

/// Appends the summary.
#[tactic(auto, unfolding(crate::specs::Report::summary_line))]
fn push_summary(
    text: &mut Vec<u8>,
    dumps: usize,
    clusters: usize,
    sections: &[Section],
) -> Result<(), OutOfMemory>
    ensures { OnOk result (text.new.items ≡ text.old.items ++ summary_line dumps clusters sections.now) }
{
    push_pieces(
        text,
        &[
            Piece::Plain("dumps "),
            Piece::Number(dumps as u64),
            Piece::Plain(" clusters "),
            Piece::Number(clusters as u64),
            Piece::Plain(" workflows "),
            Piece::Number(sections.len() as u64),
            Piece::Plain(" forked "),
            Piece::Number(count_of(Mark::Forked, sections) as u64),
            Piece::Plain(" differing "),
            Piece::Number(count_of(Mark::Differing, sections) as u64),
            Piece::Plain(" zombies "),
            Piece::Number(count_of(Mark::Zombies, sections) as u64),
            Piece::Plain(" re-drive "),
            Piece::Number(count_of(Mark::Lost, sections) as u64),
            Piece::Plain(" waiting "),
            Piece::Number(count_of(Mark::Waiting, sections) as u64),
            Piece::Plain(" unsound "),
            Piece::Number(count_of(Mark::Unsound, sections) as u64),
            Piece::Plain("\n"),
        ],
    )
}

/// Whether the summary stands first, and an empty line before each workflow.
fn has_summary(form: Form) -> bool
    ensures { result ≡ has_summary form }
{
    match form {
        Form::Text | Form::TreePicture => true,
        Form::Picture | Form::View => false,
    }
}

/// Appends a workflow, after an empty line where there is a summary.
#[tactic(auto, unfolding(crate::specs::Report::section_told))]
fn push_section(text: &mut Vec<u8>, summed: bool, section: &Section) -> Result<(), OutOfMemory>
    ensures { OnOk result (text.new.items ≡ text.old.items ++ section_told summed section.now) }
{
    if summed {
        text.extend_from_slice(b"\n")?;
    }
    text.extend_from_slice(section.text())
}

/// Appends the workflows.
fn push_sections(text: &mut Vec<u8>, summed: bool, sections: &[Section]) -> Result<(), OutOfMemory>
    ensures { OnOk result (text.new.items ≡ text.old.items ++ flat_map (section_told summed) sections.now) }
{
    for section in sections {
        push_section(text, summed, section)?;
    }
    Ok(())
}

/// The summary where it stands, and the workflows.
fn report_text(
    alloc: Global,
    summed: bool,
    dumps: usize,
    clusters: usize,
    sections: &[Section],
) -> Result<Vec<u8>, OutOfMemory>
    ensures { IfOk result (λ text. text.items ≡ report_text summed dumps clusters sections.now) }
{
    let mut text = Vec::new(alloc);
    if summed {
        push_summary(&mut text, dumps, clusters, sections)?;
    }
    push_sections(&mut text, summed, sections)?;
    Ok(text)
}

/// Whether a document can be drawn.
fn is_drawn(sections: &[Section]) -> bool
    ensures { result ≡ is_drawn sections.now }
{
    match sections {
        [section] => !section.marks.has(Mark::Unsound),
        _ => false,
    }
}

/// Whether the workflows can be told in this form.
fn can_be_told(form: Form, sections: &[Section]) -> bool
    ensures { result ≡ can_be_told form sections.now }
{
    match form {
        Form::Picture => is_drawn(sections),
        Form::Text | Form::TreePicture | Form::View => true,
    }
}

/// Whether a workflow leaves something.
fn leaves_any(sections: &[Section]) -> bool
    ensures { result ≡ list_any (λ section. leaves section.marks) sections.now }
{
    for section in sections {
        if section.marks.leaves() {
            return true;
        }
    }
    false
}

/// What is told of so many dumps of so many clusters, by their workflows.
#[tactic(auto, unfolding(crate::specs::Report::report_with))]
fn report_with(
    alloc: Global,
    request: &Request,
    dumps: usize,
    clusters: usize,
    sections: &[Section],
) -> Result<Report, Fault>
    ensures { Gives Memory (λ report. report) result (report_with request.now dumps clusters sections.now) }
{
    if !can_be_told(request.form, sections) {
        return Err(Fault::NotDrawn);
    }
    let text = report_text(alloc, has_summary(request.form), dumps, clusters, sections)?;
    Ok(Report {
        text,
        leaves: leaves_any(sections),
    })
}

/// What is told of many dumps.
#[tactic(auto, unfolding(crate::specs::Report::report_many))]
fn report_many(alloc: Global, request: &Request, input: &Input) -> Result<Report, Fault>
    ensures { Gives Memory (λ report. report) result (report_many request.now input.now) }
{
    let dumps = dumps_of(alloc, request.bare, input.parts())?;
    let count = dumps.len();
    let named = input.clusters.as_slice();
    let groups = groups_of(alloc, dumps)?;
    let sections = sections_of(alloc, request, named, &groups)?;
    report_with(alloc, request, count, named.len(), sections.as_slice())
}

/// What is told of an input: of one dump alone, or of many.
#[tactic(auto, unfolding(crate::specs::Report::report_of))]
pub(crate) fn report_of(alloc: Global, request: &Request, bytes: &[u8]) -> Result<Report, Fault>
    ensures { Gives Memory (λ report. report) result (report_of request.now bytes.now) }
{
    let input = parts_of(alloc, bytes)?;
    if input.is_alone() {
        drop(input);
        return report_alone(alloc, request, bytes);
    }
    report_many(alloc, request, &input)
}
