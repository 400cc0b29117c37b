//! The parts of an input.
ghost use Rattle.std.specs.Prelude.{◌≡◌, ◌==◌, ◌++◌, IfOk, OnOk, map};
ghost use Rattle.std.specs.List.{slice_split};
ghost use Rattle.ndc_explain_union.specs.Parts.{cluster_marker, marker_of, named_marker, parts_of, with_end, with_part};

use crate::names::NameSet;
use ndc_event::{Name, NameError, OutOfMemory};
use std::alloc::{AllocError, Global};
use std::marker::Model;
use std::mem;

/// What a line is in an input.
#[derive(Drop)]
pub(crate) enum Marker {
    /// The first line of a dump.
    Dump,
    /// It names the cluster that the dumps after it belong to.
    Cluster(Name),
    /// One more line of a dump.
    Other,
}

/// The cluster that is named.
fn named_marker(alloc: Global, name: &[u8]) -> Result<Marker, OutOfMemory>
    ensures { IfOk result (λ marker. marker ≡ named_marker name.now) }
{
    match Name::new(alloc, name) {
        Ok(name) => Ok(Marker::Cluster(name)),
        Err(NameError::Memory) => Err(AllocError),
        Err(_) => Ok(Marker::Other),
    }
}

/// What a line is, given without its end.
#[tactic(auto, unfolding(crate::specs::Parts::marker_of))]
fn marker_of(alloc: Global, line: &[u8]) -> Result<Marker, OutOfMemory>
    ensures { IfOk result (λ marker. marker ≡ marker_of line.now) }
{
    if line.strip_prefix(b"dump ".as_slice()).is_some() {
        return Ok(Marker::Dump);
    }
    match line.strip_prefix(b"cluster ".as_slice()) {
        None => Ok(Marker::Other),
        Some(name) => named_marker(alloc, name),
    }
}

/// A part of an input.
#[derive(Drop)]
pub struct Part {
    /// The cluster that was named last, where one was.
    pub cluster: Option<Name>,
    text: Vec<u8>,
}

impl Model for Part {
    ghost use Rattle.ndc_explain_union.specs.Parts.{Parted};

    ghost Value = { Parted };

    ghost view = { λ part. record { cluster = part.cluster; text = part.text.items } };
}

impl Part {
    ghost use Rattle.std.specs.Prelude.{◌≡◌};

    /// Its bytes, which are to be those of a dump.
    pub fn text(&self) -> &[u8]
        ensures { result.now ≡ self.now.text }
    {
        self.text.as_slice()
    }
}

/// The same name, where there is one.
pub(crate) fn copied(name: &Option<Name>) -> Result<Option<Name>, OutOfMemory>
    ensures { IfOk result (λ copy. copy ≡ name.now) }
{
    match name {
        None => Ok(None),
        Some(name) => {
            let copy = name.try_copy()?;
            Ok(Some(copy))
        }
    }
}

/// Appends a line end, unless there is nothing.
fn end_line(text: &mut Vec<u8>) -> Result<(), OutOfMemory>
    ensures { OnOk result (text.new.items ≡ with_end text.old.items) }
{
    match text.as_slice() {
        [] => Ok(()),
        [..] => text.extend_from_slice(b"\n"),
    }
}

/// Appends a part, unless it is empty.
fn push_part(done: &mut Vec<Part>, cluster: Option<Name>, text: Vec<u8>) -> Result<(), OutOfMemory>
    ensures { OnOk result (done.new.items ≡ with_part cluster text.items done.old.items) }
{
    match text.as_slice() {
        [] => Ok(()),
        [..] => {
            done.push(Part { cluster, text })?;
            Ok(())
        }
    }
}

/// The clusters that were named, the parts that are done, and the one that goes on.
#[derive(Drop)]
struct Cutting {
    clusters: NameSet,
    done: Vec<Part>,
    cluster: Option<Name>,
    text: Vec<u8>,
}

impl Model for Cutting {
    ghost use Rattle.ndc_explain_union.specs.Parts.{Cut};

    ghost Value = { Cut };

    ghost view = { λ cutting. record {
      clusters = cutting.clusters;
      done = cutting.done.items;
      cluster = cutting.cluster;
      text = cutting.text.items;
    } };
}

impl Cutting {
    ghost use Rattle.std.specs.Prelude.{◌≡◌, IfOk, OnOk, map};
    ghost use Rattle.ndc_explain_union.specs.Parts.{closed, ended, marker_of, no_part, with_cluster, with_lines, with_marked, with_text};

    /// No line was gone over.
    fn new(alloc: Global) -> Cutting
        ensures { result ≡ no_part }
    {
        Cutting {
            clusters: NameSet::new(alloc),
            done: Vec::new(alloc),
            cluster: None,
            text: Vec::new(alloc),
        }
    }

    /// The part that goes on is done.
    fn close(&mut self, alloc: Global) -> Result<(), OutOfMemory>
        ensures { OnOk result (self.new ≡ closed self.old) }
    {
        let mut text = mem::replace(&mut self.text, Vec::new(alloc));
        end_line(&mut text)?;
        push_part(&mut self.done, copied(&self.cluster)?, text)
    }

    /// The line goes after the part that goes on.
    fn push_line(&mut self, line: &[u8]) -> Result<(), OutOfMemory>
        ensures { OnOk result (self.new ≡ with_text line.now self.old) }
    {
        end_line(&mut self.text)?;
        self.text.extend_from_slice(line)
    }

    /// The parts after it are this cluster's.
    fn set_cluster(&mut self, name: Name) -> Result<(), OutOfMemory>
        ensures { OnOk result (self.new ≡ with_cluster name self.old) }
    {
        self.clusters.insert(&name)?;
        self.cluster = Some(name);
        Ok(())
    }

    /// Takes a line in that is marked so.
    fn add_marked(&mut self, alloc: Global, marker: Marker, line: &[u8]) -> Result<(), OutOfMemory>
        ensures { OnOk result (self.new ≡ with_marked marker line.now self.old) }
    {
        match marker {
            Marker::Dump => {
                self.close(alloc)?;
                self.push_line(line)
            }
            Marker::Cluster(name) => {
                self.close(alloc)?;
                self.set_cluster(name)
            }
            Marker::Other => self.push_line(line),
        }
    }

    /// Takes lines in, each without its end.
    fn add_lines(&mut self, alloc: Global, lines: &[&[u8]]) -> Result<(), OutOfMemory>
        ensures { OnOk result (self.new ≡ with_lines (map (λ line. line.now) lines.now) self.old) }
    {
        for line in lines {
            self.add_marked(alloc, marker_of(alloc, line)?, line)?;
        }
        Ok(())
    }

    /// The parts, after the last line.
    fn end(self) -> Result<Input, OutOfMemory>
        ensures { IfOk result (λ input. input ≡ ended self) }
    {
        let mut parts = self.done;
        push_part(&mut parts, self.cluster, self.text)?;
        Ok(Input {
            clusters: self.clusters,
            parts,
        })
    }
}

/// The parts of an input that holds dumps.
#[derive(Drop)]
pub struct Input {
    /// The clusters that it names, each once.
    pub clusters: NameSet,
    parts: Vec<Part>,
}

impl Model for Input {
    ghost use Rattle.ndc_explain_union.specs.Parts.{Inputs};

    ghost Value = { Inputs };

    ghost view = { λ input. record { clusters = input.clusters; parts = input.parts.items } };
}

impl Input {
    ghost use Rattle.std.specs.Prelude.{◌≡◌};
    ghost use Rattle.ndc_explain_union.specs.Parts.{is_alone};

    /// Its parts, in order.
    pub fn parts(&self) -> &[Part]
        ensures { result.now ≡ self.now.parts }
    {
        self.parts.as_slice()
    }

    /// Whether it is one dump alone: it names no cluster, and has no second part.
    pub fn is_alone(&self) -> bool
        ensures { result ≡ is_alone self.now }
    {
        !(0 < self.clusters.as_slice().len()) && !(1 < self.parts.len())
    }
}

/// The lines of an input, without their ends.
fn lines_in<'a>(alloc: Global, bytes: &'a [u8]) -> Result<Vec<&'a [u8]>, OutOfMemory>
    ensures { IfOk result (λ lines. map (λ line. line.now) lines.items ≡ slice_split (λ byte. byte == 10) bytes.now) }
{
    bytes.split(|byte| *byte == b'\n').collect(alloc)
}

/// The parts of an input that holds dumps. A line that begins with `dump ` begins one; a line `cluster NAME` stands
/// between dumps, and says which cluster those after it belong to, up to the next such line.
#[tactic(auto, unfolding(crate::specs::Parts::parts_of))]
pub fn parts_of(alloc: Global, bytes: &[u8]) -> Result<Input, OutOfMemory>
    ensures { IfOk result (λ input. input ≡ parts_of bytes.now) }
{
    let lines = lines_in(alloc, bytes)?;
    let mut cutting = Cutting::new(alloc);
    cutting.add_lines(alloc, lines.as_slice())?;
    cutting.end()
}
