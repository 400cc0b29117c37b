//! A dump in the form that was asked for.
ghost use Rattle.std.specs.Prelude.{◌≡◌, ◌++◌, OnOk, IfOk};
ghost use Rattle.ndc_explain.specs.Explanation.{explained, findings, workflow_line};
ghost use Rattle.ndc_explain_top.specs.Told.{told_of, told_with};

use crate::asked::{Form, Request};
use ndc_domain::Clusters;
use ndc_dump::{Dump, dump_text};
use ndc_event::OutOfMemory;
use ndc_explain::{Found, push_explained};
use ndc_explain_picture::{push_picture, push_tree_picture};
use ndc_text::dump::push_heading;
use std::alloc::Global;

/// Appends the explanation of a dump.
fn push_explanation(
    alloc: Global,
    text: &mut Vec<u8>,
    clusters: &Option<Clusters>,
    all: bool,
    dump: &Dump,
    found: &Found,
) -> Result<(), OutOfMemory>
    ensures { OnOk result (text.new.items ≡ text.old.items ++ (workflow_line dump.now.domain dump.now.workflow ++ explained clusters.now all dump.now found.now)) }
{
    push_heading(text, b"workflow ".as_slice(), &dump.domain, &dump.workflow)?;
    push_explained(alloc, text, clusters, all, dump, found)
}

/// A dump in the form that was asked for, with what was found in it.
pub(crate) fn told(
    alloc: Global,
    request: &Request,
    dump: &Dump,
    found: &Found,
) -> Result<Vec<u8>, OutOfMemory>
    ensures { IfOk result (λ text. text.items ≡ told_with request.now.form request.now.clusters request.now.all dump.now found.now) }
{
    let mut text = Vec::new(alloc);
    match request.form {
        Form::Text => push_explanation(
            alloc,
            &mut text,
            &request.clusters,
            request.all,
            dump,
            found,
        )?,
        Form::Picture => push_picture(alloc, &mut text, &request.clusters, dump)?,
        Form::TreePicture => push_tree_picture(alloc, &mut text, &request.clusters, dump)?,
        Form::View => {
            text = dump_text(alloc, &dump.domain, &dump.workflow, &dump.view)?;
        }
    }
    Ok(text)
}
