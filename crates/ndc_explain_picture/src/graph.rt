//! The picture of a dump in characters: the newest block first, and a column for each branch that goes on.
ghost use Rattle.std.specs.Prelude.{◌≡◌, ◌++◌, false, map, OnOk};
ghost use Rattle.std.specs.List.{flat_map};
ghost use Rattle.ndc_explain_picture.specs.Graph.{between_text, block_events, block_head, copy_text, fate_text, is_inside, joint_line, joint_of, joint_text, kind_word, more_words, node_text, row_text, tree_picture_of};

use crate::blocks::{Block, blocks_of, copies_of, kinds_of, kinds_told, summary_of};
use crate::columns::{go_behind, has_column, is_column, widen};
use ndc_domain::Clusters;
use ndc_dump::Dump;
use ndc_dump_causes::keys::KeySet;
use ndc_event::{Batch, BatchKey, Origin, OutOfMemory};
use ndc_explain::piece::{Piece, push_pieces};
use ndc_explain::standing::standing;
use ndc_explain::{Summary, writer_name};
use ndc_history::Item;
use ndc_text::dump::push_heading;
use std::alloc::Global;
use std::marker::Model;

/// The mark of a column beside a block: a star or an o for the block itself.
fn node_word(stands: bool, key: BatchKey, column: Option<BatchKey>) -> &'static str
    ensures { result.now ≡ node_text stands key column }
{
    match column {
        None => "  ",
        Some(waited) => {
            if key == waited {
                if stands { "* " } else { "o " }
            } else {
                "| "
            }
        }
    }
}

/// Appends the columns beside a block.
fn push_nodes(
    text: &mut Vec<u8>,
    stands: bool,
    key: BatchKey,
    columns: &[Option<BatchKey>],
) -> Result<(), OutOfMemory>
    ensures { OnOk result (text.new.items ≡ text.old.items ++ flat_map (node_text stands key) columns.now) }
{
    for column in columns {
        text.extend_from_slice(node_word(stands, key, *column).as_bytes())?;
    }
    Ok(())
}

/// The mark of a column in a line that joins two of them.
fn joint_word(
    key: BatchKey,
    parent: BatchKey,
    inside: bool,
    column: Option<BatchKey>,
) -> &'static str
    ensures { result.now ≡ joint_text key parent inside column }
{
    match column {
        None => { if inside { "-" } else { " " } }
        Some(waited) => {
            if key == waited {
                "'"
            } else if parent == waited {
                "+"
            } else {
                "|"
            }
        }
    }
}

/// Whether the line that joins two columns goes on after a column.
fn is_inside(key: BatchKey, parent: BatchKey, inside: bool, column: Option<BatchKey>) -> bool
    ensures { result ≡ is_inside key parent inside column }
{
    if is_column(key, column) || is_column(parent, column) {
        !inside
    } else {
        inside
    }
}

/// What stands between two columns.
fn between_word(inside: bool) -> &'static str
    ensures { result.now ≡ between_text inside }
{
    if inside { "-" } else { " " }
}

/// Appends a column of the line that joins two of them, and what stands after it.
fn push_joint(
    text: &mut Vec<u8>,
    key: BatchKey,
    parent: BatchKey,
    inside: bool,
    column: Option<BatchKey>,
) -> Result<(), OutOfMemory>
    ensures { OnOk result (text.new.items ≡ text.old.items
        ++ (joint_text key parent inside column ++ between_text (is_inside key parent inside column))) }
{
    text.extend_from_slice(joint_word(key, parent, inside, column).as_bytes())?;
    let behind = is_inside(key, parent, inside, column);
    text.extend_from_slice(between_word(behind).as_bytes())
}

/// Appends the line that joins the columns of a block and of its parent.
fn push_joint_line(
    text: &mut Vec<u8>,
    key: BatchKey,
    parent: BatchKey,
    columns: &[Option<BatchKey>],
) -> Result<(), OutOfMemory>
    ensures { OnOk result (text.new.items ≡ text.old.items ++ joint_line key parent false columns.now) }
{
    let mut inside = false;
    for column in columns {
        push_joint(text, key, parent, inside, *column)?;
        inside = is_inside(key, parent, inside, *column);
    }
    text.extend_from_slice(b"\n")
}

/// Appends that line, where another column goes on with the parent.
fn push_joint_of(
    text: &mut Vec<u8>,
    key: BatchKey,
    parent: Option<BatchKey>,
    columns: &[Option<BatchKey>],
) -> Result<(), OutOfMemory>
    ensures { OnOk result (text.new.items ≡ text.old.items ++ joint_of key parent columns.now) }
{
    match parent {
        None => Ok(()),
        Some(parent) => {
            if has_column(parent, columns) {
                push_joint_line(text, key, parent, columns)
            } else {
                Ok(())
            }
        }
    }
}

/// Whether a block stands on a current branch.
fn fate_word(stands: bool) -> &'static str
    ensures { result.now ≡ fate_text stands }
{
    if stands { "" } else { " lost" }
}

/// Appends a block without its events.
fn push_head(
    text: &mut Vec<u8>,
    clusters: &Option<Clusters>,
    stands: bool,
    summary: Summary,
) -> Result<(), OutOfMemory>
    ensures { OnOk result (text.new.items ≡ text.old.items ++ block_head clusters.now stands summary) }
{
    push_pieces(
        text,
        &[
            Piece::Span(summary),
            Piece::Writer(writer_name(clusters, summary.first.version)),
            Piece::Plain(" run "),
            Piece::Run(summary.run),
            Piece::Plain(fate_word(stands)),
            Piece::Carrier(summary.carrier),
        ],
    )
}

/// Appends a signal event that a block copies.
fn push_copy(text: &mut Vec<u8>, origin: Origin) -> Result<(), OutOfMemory>
    ensures { OnOk result (text.new.items ≡ text.old.items ++ copy_text origin) }
{
    push_pieces(
        text,
        &[
            Piece::Plain(" copies "),
            Piece::Event(Item {
                id: origin.event,
                version: origin.version,
            }),
        ],
    )
}

/// Appends the signal events that a block copies.
fn push_copies(text: &mut Vec<u8>, origins: &[Origin]) -> Result<(), OutOfMemory>
    ensures { OnOk result (text.new.items ≡ text.old.items ++ flat_map copy_text origins.now) }
{
    for origin in origins {
        push_copy(text, *origin)?;
    }
    Ok(())
}

/// Appends a kind of event.
fn push_kind(text: &mut Vec<u8>, kind: &'static str) -> Result<(), OutOfMemory>
    ensures { OnOk result (text.new.items ≡ text.old.items ++ kind_word kind.now) }
{
    push_pieces(text, &[Piece::Plain(" "), Piece::Plain(kind)])
}

/// Appends kinds of events.
fn push_kinds(text: &mut Vec<u8>, kinds: &[&'static str]) -> Result<(), OutOfMemory>
    ensures { OnOk result (text.new.items ≡ text.old.items ++ flat_map kind_word (map (λ kind. kind.now) kinds.now)) }
{
    for kind in kinds {
        push_kind(text, kind)?;
    }
    Ok(())
}

/// Appends how many events are not told, where there are such.
fn push_more(text: &mut Vec<u8>, events: usize) -> Result<(), OutOfMemory>
    ensures { OnOk result (text.new.items ≡ text.old.items ++ more_words events) }
{
    if 6 < events {
        push_pieces(
            text,
            &[
                Piece::Plain(" and "),
                Piece::Number((events - 6) as u64),
                Piece::Plain(" more"),
            ],
        )
    } else {
        Ok(())
    }
}

/// Appends the events of a block.
fn push_events(
    text: &mut Vec<u8>,
    kinds: &[&'static str],
    copies: &[Origin],
) -> Result<(), OutOfMemory>
    ensures { OnOk result (text.new.items ≡ text.old.items ++ block_events (map (λ kind. kind.now) kinds.now) copies.now) }
{
    push_copies(text, copies)?;
    text.extend_from_slice(b":")?;
    push_kinds(text, kinds_told(kinds))?;
    push_more(text, kinds.len())?;
    text.extend_from_slice(b"\n")
}

/// Appends a block in its columns.
fn push_row(
    alloc: Global,
    text: &mut Vec<u8>,
    clusters: &Option<Clusters>,
    stands: bool,
    batches: &[&Batch],
    summary: Summary,
    columns: &[Option<BatchKey>],
) -> Result<(), OutOfMemory>
    ensures { OnOk result (text.new.items ≡ text.old.items ++ row_text clusters.now stands (map (λ b. b.now) batches.now) summary columns.now) }
{
    let kinds = kinds_of(alloc, batches)?;
    let copies = copies_of(alloc, batches)?;
    push_nodes(text, stands, summary.last, columns)?;
    push_head(text, clusters, stands, summary)?;
    push_events(text, kinds.as_slice(), copies.as_slice())?;
    push_joint_of(text, summary.last, summary.parent, columns)
}

/// The columns, and the text so far.
#[derive(Drop)]
struct Graph {
    columns: Vec<Option<BatchKey>>,
    text: Vec<u8>,
}

impl Model for Graph {
    ghost use Rattle.ndc_explain_picture.specs.Graph.{Graphed};

    ghost Value = { Graphed };

    ghost view = { λ graph. record { columns = graph.columns.items; text = graph.text.items } };
}

impl Graph {
    ghost use Rattle.std.specs.Prelude.{◌≡◌, [], map, OnOk};
    ghost use Rattle.ndc_explain_picture.specs.Blocks.{summary_of};
    ghost use Rattle.ndc_explain_picture.specs.Graph.{with_block, with_blocks, with_row};

    /// No column, and no text.
    fn new(alloc: Global) -> Graph
        ensures { result ≡ record { columns = []; text = [] } }
    {
        Graph {
            columns: Vec::new(alloc),
            text: Vec::new(alloc),
        }
    }

    /// Takes batches in as a block that has a column.
    fn add_row(
        &mut self,
        alloc: Global,
        clusters: &Option<Clusters>,
        keys: &KeySet,
        batches: &[&Batch],
        summary: Summary,
    ) -> Result<(), OutOfMemory>
        ensures { OnOk result (self.new ≡ with_row clusters.now keys.now (map (λ b. b.now) batches.now) summary self.old) }
    {
        let stands = keys.contains(summary.first);
        push_row(
            alloc,
            &mut self.text,
            clusters,
            stands,
            batches,
            summary,
            self.columns.as_slice(),
        )?;
        go_behind(&mut self.columns, summary)
    }

    /// Takes batches in as a block.
    fn add(
        &mut self,
        alloc: Global,
        clusters: &Option<Clusters>,
        keys: &KeySet,
        batches: &[&Batch],
        summary: Option<Summary>,
    ) -> Result<(), OutOfMemory>
        ensures { OnOk result (self.new ≡ with_block clusters.now keys.now (map (λ b. b.now) batches.now) summary self.old) }
    {
        match summary {
            None => Ok(()),
            Some(summary) => {
                widen(&mut self.columns, summary.last)?;
                self.add_row(alloc, clusters, keys, batches, summary)
            }
        }
    }

    /// Takes a block in.
    fn add_block(
        &mut self,
        alloc: Global,
        clusters: &Option<Clusters>,
        keys: &KeySet,
        block: &Block,
    ) -> Result<(), OutOfMemory>
        ensures { OnOk result (self.new ≡ with_block clusters.now keys.now block.now (summary_of block.now) self.old) }
    {
        let batches = block.as_slice();
        self.add(alloc, clusters, keys, batches, summary_of(batches))
    }

    /// Takes blocks in, the last one first.
    fn add_all(
        &mut self,
        alloc: Global,
        clusters: &Option<Clusters>,
        keys: &KeySet,
        blocks: &[Block],
    ) -> Result<(), OutOfMemory>
        ensures { OnOk result (self.new ≡ with_blocks clusters.now keys.now blocks.now self.old) }
    {
        let mut place = blocks.len();
        while place > 0 {
            place -= 1;
            self.add_block(alloc, clusters, keys, &blocks[place])?;
        }
        Ok(())
    }
}

/// Draws a dump in characters: a line for each block of batches, the newest first, beside a column for each branch that
/// goes on above it.
///
/// It takes time of the dump, and for each block of the branches that go on beside it.
pub fn push_tree_picture(
    alloc: Global,
    text: &mut Vec<u8>,
    clusters: &Option<Clusters>,
    dump: &Dump,
) -> Result<(), OutOfMemory>
    ensures { OnOk result (text.new.items ≡ text.old.items ++ tree_picture_of clusters.now dump.now) }
{
    let keys = standing(alloc, &dump.view)?;
    let blocks = blocks_of(alloc, dump.view.batches.as_slice())?;
    let mut graph = Graph::new(alloc);
    graph.add_all(alloc, clusters, &keys, blocks.as_slice())?;
    push_heading(text, b"workflow ".as_slice(), &dump.domain, &dump.workflow)?;
    text.extend_from_slice(graph.text.as_slice())
}
