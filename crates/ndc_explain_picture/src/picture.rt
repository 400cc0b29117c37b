//! The picture of a dump: an SVG document.
ghost use Rattle.std.specs.Prelude.{◌≡◌, ◌<◌, ◌++◌, None, map, IfOk, OnOk};
ghost use Rattle.std.specs.List.{flat_map};
ghost use Rattle.std.specs.Option.{option_copied};
ghost use Rattle.ndc_explain_picture.specs.Picture.{arrow_for, arrow_path, arrow_text, arrows_text, bent_text, box_text, class_of, drawn, event_label, event_line, events_text, fitted, frame_text, head_text, is_next, is_same_home, key_of_run, lane_text, legend_text, line_text, more_text, name_text, picture_of, picture_with, rect_text, run_named, shift_of, side_of, size_text, straight_text, style_text, title_text};

use crate::blocks::{Block, blocks_of, copies_of, events_of, events_told, summary_of};
use crate::layout::{Head, Layout, layout_of, plus};
use crate::places::{Place, Places};
use ndc_domain::Clusters;
use ndc_dump::Dump;
use ndc_dump_causes::keys::KeySet;
use ndc_event::{Batch, BatchKey, Event, Name, Origin, OutOfMemory, RunId};
use ndc_explain::piece::{Piece, push_pieces};
use ndc_explain::standing::standing;
use ndc_explain::{Summary, writer_name};
use ndc_explain_sides::{first_name, second_name};
use ndc_model_sets::View;
use std::alloc::Global;
use std::marker::Model;

/// Appends the beginning of the document.
#[tactic(auto, unfolding(crate::specs::Picture::size_text))]
fn push_size(text: &mut Vec<u8>, width: u64, depth: u64) -> Result<(), OutOfMemory>
    ensures { OnOk result (text.new.items ≡ text.old.items ++ size_text width depth) }
{
    push_pieces(
        text,
        &[
            Piece::Plain("<svg xmlns='http://www.w3.org/2000/svg' viewBox='0 0 "),
            Piece::Number(width),
            Piece::Plain(" "),
            Piece::Number(depth),
            Piece::Plain("' width='"),
            Piece::Number(width),
            Piece::Plain("' height='"),
            Piece::Number(depth),
            Piece::Plain("'>\n"),
        ],
    )
}

/// Appends how lines and boxes look.
#[tactic(auto, unfolding(crate::specs::Picture::style_text))]
fn push_style(text: &mut Vec<u8>) -> Result<(), OutOfMemory>
    ensures { OnOk result (text.new.items ≡ text.old.items ++ style_text) }
{
    push_pieces(
        text,
        &[
            Piece::Plain(
                "<style>text{font:11px monospace;fill:#222}.head{font-weight:bold}.back{fill:#fff}path{fill:none}\n",
            ),
            Piece::Plain(
                "rect{fill:#fff}.current{stroke:#0072b2;stroke-width:3}.lost{stroke:#777;stroke-width:1;stroke-dasharray:6 4}\n",
            ),
            Piece::Plain(
                ".carrier{stroke:#0072b2;stroke-width:2;stroke-dasharray:2 4}.copy{stroke:#d55e00;stroke-width:2;stroke-dasharray:12 3}\n",
            ),
            Piece::Plain(
                "#arrow path{fill:#d55e00}@media(prefers-color-scheme:dark){text{fill:#eee}.back{fill:#111}rect{fill:#111}\n",
            ),
            Piece::Plain(
                ".current,.carrier{stroke:#56b4e9}.lost{stroke:#999}.copy{stroke:#e69f00}#arrow path{fill:#e69f00}}</style>\n",
            ),
            Piece::Plain(
                "<defs><marker id='arrow' viewBox='0 0 8 8' refX='8' refY='4' markerWidth='4' markerHeight='4' orient='auto'>",
            ),
            Piece::Plain("<path d='M0 0L8 4L0 8z'/></marker></defs>\n"),
        ],
    )
}

/// Appends what the picture is of.
#[tactic(auto, unfolding(crate::specs::Picture::title_text))]
fn push_title<'n>(
    text: &mut Vec<u8>,
    domain: &'n [u8],
    workflow: &'n [u8],
) -> Result<(), OutOfMemory>
    ensures { OnOk result (text.new.items ≡ text.old.items ++ title_text domain.now workflow.now) }
{
    push_pieces(
        text,
        &[
            Piece::Plain("<title>"),
            Piece::Escaped(domain),
            Piece::Plain(" "),
            Piece::Escaped(workflow),
            Piece::Plain(
                "</title>\n<rect class='back' width='100%' height='100%'/>\n<text class='head' x='20' y='28'>",
            ),
            Piece::Escaped(domain),
            Piece::Plain(" "),
            Piece::Escaped(workflow),
            Piece::Plain("</text>\n"),
        ],
    )
}

/// Appends what its lines say.
#[tactic(auto, unfolding(crate::specs::Picture::legend_text))]
fn push_legend(text: &mut Vec<u8>) -> Result<(), OutOfMemory>
    ensures { OnOk result (text.new.items ≡ text.old.items ++ legend_text) }
{
    push_pieces(
        text,
        &[
            Piece::Plain(
                "<path class='current' d='M20 64H70'/><text x='80' y='68'>on a current branch</text>\n",
            ),
            Piece::Plain(
                "<path class='lost' d='M20 88H70'/><text x='80' y='92'>on a branch that lost, or in a zombie</text>\n",
            ),
            Piece::Plain(
                "<path class='carrier' d='M20 112H70'/><text x='80' y='116'>a run continues as the next</text>\n",
            ),
            Piece::Plain(
                "<path class='copy' marker-end='url(#arrow)' d='M20 136H70'/><text x='80' y='140'>a signal is copied</text>\n",
            ),
        ],
    )
}

/// Appends the head of a lane: the cluster of this name, where it has one, or the version.
#[tactic(auto, unfolding(crate::specs::Picture::lane_text))]
fn push_lane(text: &mut Vec<u8>, name: &[u8], version: u64, left: u64) -> Result<(), OutOfMemory>
    ensures { OnOk result (text.new.items ≡ text.old.items ++ lane_text name.now version left) }
{
    match name {
        [] => push_pieces(
            text,
            &[
                Piece::Plain("<text class='head' x='"),
                Piece::Number(left),
                Piece::Plain("' y='28'>version "),
                Piece::Number(version),
                Piece::Plain("</text>\n"),
            ],
        ),
        [..] => push_pieces(
            text,
            &[
                Piece::Plain("<text class='head' x='"),
                Piece::Number(left),
                Piece::Plain("' y='28'>"),
                Piece::Escaped(name),
                Piece::Plain("</text>\n"),
            ],
        ),
    }
}

/// Appends the head of a lane.
fn push_head(text: &mut Vec<u8>, clusters: &Option<Clusters>, head: Head) -> Result<(), OutOfMemory>
    ensures { OnOk result (text.new.items ≡ text.old.items ++ head_text clusters.now head) }
{
    push_lane(
        text,
        writer_name(clusters, head.version),
        head.version,
        head.left,
    )
}

/// The class of what belongs to a batch: whether it stands on a current branch.
fn class_of(keys: &KeySet, key: BatchKey) -> &'static str
    ensures { result.now ≡ class_of keys.now key }
{
    if keys.contains(key) {
        "current"
    } else {
        "lost"
    }
}

/// Whether one place is directly below the other.
fn is_next(from: Place, to: Place) -> bool
    ensures { result ≡ is_next from to }
{
    from.left == to.left && plus(from.bottom, 28) == to.top
}

/// Appends a line straight down.
#[tactic(auto, unfolding(crate::specs::Picture::straight_text))]
fn push_straight(
    text: &mut Vec<u8>,
    class: &'static str,
    from: Place,
    to: Place,
) -> Result<(), OutOfMemory>
    ensures { OnOk result (text.new.items ≡ text.old.items ++ straight_text class.now from to) }
{
    push_pieces(
        text,
        &[
            Piece::Plain("<path class='"),
            Piece::Plain(class),
            Piece::Plain("' d='M"),
            Piece::Number(plus(from.left, 20)),
            Piece::Plain(" "),
            Piece::Number(from.bottom),
            Piece::Plain("V"),
            Piece::Number(to.top),
            Piece::Plain("'/>\n"),
        ],
    )
}

/// Appends a line that goes down on the left of the lane where it ends.
#[tactic(auto, unfolding(crate::specs::Picture::bent_text))]
fn push_bent(
    text: &mut Vec<u8>,
    class: &'static str,
    from: Place,
    to: Place,
) -> Result<(), OutOfMemory>
    ensures { OnOk result (text.new.items ≡ text.old.items ++ bent_text class.now from to) }
{
    push_pieces(
        text,
        &[
            Piece::Plain("<path class='"),
            Piece::Plain(class),
            Piece::Plain("' d='M"),
            Piece::Number(plus(from.left, 20)),
            Piece::Plain(" "),
            Piece::Number(from.bottom),
            Piece::Plain("V"),
            Piece::Number(plus(from.bottom, 14)),
            Piece::Plain("H"),
            Piece::Number(to.left.saturating_sub(16)),
            Piece::Plain("V"),
            Piece::Number(plus(to.top, 16)),
            Piece::Plain("H"),
            Piece::Number(to.left),
            Piece::Plain("'/>\n"),
        ],
    )
}

/// Appends a line from one block to another, where the first one has a place.
fn push_line(
    text: &mut Vec<u8>,
    class: &'static str,
    from: Option<&Place>,
    to: Place,
) -> Result<(), OutOfMemory>
    ensures { OnOk result (text.new.items ≡ text.old.items ++ line_text class.now (option_copied from.entry) to) }
{
    match from {
        None => Ok(()),
        Some(from) => {
            if is_next(*from, to) {
                push_straight(text, class, *from, to)
            } else {
                push_bent(text, class, *from, to)
            }
        }
    }
}

/// Where an arrow ends: on the near side of the block.
fn side_of(from: Place, to: Place) -> u64
    ensures { result ≡ side_of from to }
{
    if from.left < to.left {
        to.left
    } else {
        plus(to.left, 290)
    }
}

/// Appends an arrow from here to the right, then down or up, and then to here.
#[tactic(auto, unfolding(crate::specs::Picture::arrow_path))]
fn push_arrow_path(
    text: &mut Vec<u8>,
    left: u64,
    top: u64,
    turn: u64,
    depth: u64,
    side: u64,
) -> Result<(), OutOfMemory>
    ensures { OnOk result (text.new.items ≡ text.old.items ++ arrow_path left top turn depth side) }
{
    push_pieces(
        text,
        &[
            Piece::Plain("<path class='copy' marker-end='url(#arrow)' d='M"),
            Piece::Number(left),
            Piece::Plain(" "),
            Piece::Number(top),
            Piece::Plain("H"),
            Piece::Number(turn),
            Piece::Plain("V"),
            Piece::Number(depth),
            Piece::Plain("H"),
            Piece::Number(side),
            Piece::Plain("'/>\n"),
        ],
    )
}

/// How far the arrow of a signal is moved: arrows of signals that stand near each other have lines of their own.
fn shift_of(origin: Origin) -> u64
    ensures shift { result ≡ shift_of origin }
    ensures small { result < 27 }
{
    origin.event % 9 * 3
}

/// Appends an arrow from one block to another, where the first one has a place: it goes down on the right of the first
/// one's lane.
fn push_arrow(
    text: &mut Vec<u8>,
    shift: u64,
    from: Option<&Place>,
    to: Place,
) -> Result<(), OutOfMemory>
    requires { shift < 27 }
    ensures { OnOk result (text.new.items ≡ text.old.items ++ arrow_text shift (option_copied from.entry) to) }
{
    match from {
        None => Ok(()),
        Some(from) => push_arrow_path(
            text,
            plus(from.left, 290),
            plus(from.top, 8 + shift),
            plus(from.left, 294 + shift),
            plus(to.top, 8 + shift),
            side_of(*from, to),
        ),
    }
}

/// Whether an arrow leads from the same place as the one before.
fn is_same_home(last: Option<&Place>, from: Option<&Place>) -> bool
    ensures { result ≡ is_same_home (option_copied last.entry) (option_copied from.entry) }
{
    match last {
        None => false,
        Some(last) => match from {
            None => false,
            Some(from) => last.left == from.left && last.top == from.top,
        },
    }
}

/// Appends the arrow of a signal, unless one leads from the same place already.
fn push_arrow_for(
    text: &mut Vec<u8>,
    last: Option<&Place>,
    places: &Places,
    to: Place,
    origin: Origin,
) -> Result<(), OutOfMemory>
    ensures { OnOk result (text.new.items ≡ text.old.items ++ arrow_for (option_copied last.entry) places.now to origin) }
{
    let from = places.home_of(origin);
    if is_same_home(last, from) {
        return Ok(());
    }
    push_arrow(text, shift_of(origin), from, to)
}

/// Appends the arrows from where each of these signals was first written, one from each place of several in a row.
fn push_arrows(
    text: &mut Vec<u8>,
    places: &Places,
    to: Place,
    origins: &[Origin],
) -> Result<(), OutOfMemory>
    ensures { OnOk result (text.new.items ≡ text.old.items ++ arrows_text places.now to origins.now) }
{
    let mut last: Option<&Place> = None;
    for origin in origins {
        push_arrow_for(text, last, places, to, *origin)?;
        last = places.home_of(*origin);
    }
    Ok(())
}

/// Appends the box of a block.
#[tactic(auto, unfolding(crate::specs::Picture::rect_text))]
fn push_rect(
    text: &mut Vec<u8>,
    class: &'static str,
    left: u64,
    top: u64,
    height: u64,
) -> Result<(), OutOfMemory>
    ensures { OnOk result (text.new.items ≡ text.old.items ++ rect_text class.now left top height) }
{
    push_pieces(
        text,
        &[
            Piece::Plain("<rect class='"),
            Piece::Plain(class),
            Piece::Plain("' x='"),
            Piece::Number(left),
            Piece::Plain("' y='"),
            Piece::Number(top),
            Piece::Plain("' width='290' height='"),
            Piece::Number(height),
            Piece::Plain("'/>"),
        ],
    )
}

/// The key of a run's first batch, by which the run is named.
#[tactic(auto, unfolding(crate::specs::Picture::key_of_run))]
fn key_of_run(run: RunId) -> BatchKey
    ensures { result ≡ key_of_run run }
{
    BatchKey {
        version: (run.value / (1 << 64)) as u64,
        task: (run.value % (1 << 64)) as u64,
    }
}

/// Appends the keys of a block, where its text begins.
#[tactic(auto, unfolding(crate::specs::Picture::name_text))]
fn push_name(text: &mut Vec<u8>, summary: Summary, left: u64, base: u64) -> Result<(), OutOfMemory>
    ensures { OnOk result (text.new.items ≡ text.old.items ++ name_text summary left base) }
{
    push_pieces(
        text,
        &[
            Piece::Plain("<text x='"),
            Piece::Number(left),
            Piece::Plain("' y='"),
            Piece::Number(base),
            Piece::Plain("'><tspan class='head'>"),
            Piece::Span(summary),
            Piece::Plain("</tspan>"),
        ],
    )
}

/// Appends a run by its first batch, with its whole id as a title.
#[tactic(auto, unfolding(crate::specs::Picture::run_named))]
fn push_run(text: &mut Vec<u8>, left: u64, run: RunId) -> Result<(), OutOfMemory>
    ensures { OnOk result (text.new.items ≡ text.old.items ++ run_named left run) }
{
    let key = key_of_run(run);
    push_pieces(
        text,
        &[
            Piece::Plain("<tspan x='"),
            Piece::Number(left),
            Piece::Plain("' dy='15'>run "),
            Piece::Key(key),
            Piece::Plain("<title>"),
            Piece::Run(run),
            Piece::Plain("</title></tspan>"),
        ],
    )
}

/// Appends the box of a block, with its key and its run.
fn push_box(
    text: &mut Vec<u8>,
    class: &'static str,
    summary: Summary,
    place: Place,
) -> Result<(), OutOfMemory>
    ensures { OnOk result (text.new.items ≡ text.old.items ++ box_text class.now summary place) }
{
    let height = place.bottom.saturating_sub(place.top);
    push_rect(text, class, place.left, place.top, height)?;
    push_name(text, summary, plus(place.left, 10), plus(place.top, 20))?;
    push_run(text, plus(place.left, 10), summary.run)
}

/// A text cut to what fits into a box.
fn fitted(text: Vec<u8>) -> Result<Vec<u8>, OutOfMemory>
    ensures { IfOk result (λ cut. cut.items ≡ fitted text.items) }
{
    let mut cut = text;
    if 40 < cut.len() {
        cut.truncate(38);
        cut.extend_from_slice(b"..")?;
    }
    Ok(cut)
}

/// An event by its kind and its names.
#[tactic(auto, unfolding(crate::specs::Picture::event_label))]
fn event_label(alloc: Global, event: &Event) -> Result<Vec<u8>, OutOfMemory>
    ensures { IfOk result (λ label. label.items ≡ event_label event.now) }
{
    let mut label = Vec::new(alloc);
    push_pieces(
        &mut label,
        &[
            Piece::Plain(event.kind.name()),
            Piece::Name(first_name(&event.kind)),
            Piece::Name(second_name(&event.kind)),
        ],
    )?;
    Ok(label)
}

/// Appends a line for an event.
#[tactic(auto, unfolding(crate::specs::Picture::event_line))]
fn push_event(
    alloc: Global,
    text: &mut Vec<u8>,
    left: u64,
    event: &Event,
) -> Result<(), OutOfMemory>
    ensures { OnOk result (text.new.items ≡ text.old.items ++ event_line left event.now) }
{
    let label = fitted(event_label(alloc, event)?)?;
    push_pieces(
        text,
        &[
            Piece::Plain("<tspan x='"),
            Piece::Number(left),
            Piece::Plain("' dy='15'>"),
            Piece::Escaped(label.as_slice()),
            Piece::Plain("</tspan>"),
        ],
    )
}

/// Appends a line for each of these events.
fn push_each_event(
    alloc: Global,
    text: &mut Vec<u8>,
    left: u64,
    events: &[&Event],
) -> Result<(), OutOfMemory>
    ensures { OnOk result (text.new.items ≡ text.old.items ++ flat_map (event_line left) (map (λ event. event.now) events.now)) }
{
    for event in events {
        push_event(alloc, text, left, event)?;
    }
    Ok(())
}

/// Appends how many events are not told, where there are such.
#[tactic(auto, unfolding(crate::specs::Picture::more_text))]
fn push_more(text: &mut Vec<u8>, left: u64, events: usize) -> Result<(), OutOfMemory>
    ensures { OnOk result (text.new.items ≡ text.old.items ++ more_text left events) }
{
    if 6 < events {
        push_pieces(
            text,
            &[
                Piece::Plain("<tspan x='"),
                Piece::Number(left),
                Piece::Plain("' dy='15'>and "),
                Piece::Number((events - 6) as u64),
                Piece::Plain(" more</tspan>"),
            ],
        )
    } else {
        Ok(())
    }
}

/// Appends the lines for the events of a block.
fn push_events(
    alloc: Global,
    text: &mut Vec<u8>,
    left: u64,
    events: &[&Event],
) -> Result<(), OutOfMemory>
    ensures { OnOk result (text.new.items ≡ text.old.items ++ events_text left (map (λ event. event.now) events.now)) }
{
    push_each_event(alloc, text, left, events_told(events))?;
    push_more(text, left, events.len())?;
    text.extend_from_slice(b"</text>\n")
}

/// What is drawn.
#[derive(Drop)]
struct Drawing<'v> {
    blocks: Vec<Block<'v>>,
    layout: Layout,
    /// The batches that stand on current branches.
    keys: KeySet,
}

impl<'v> Model for Drawing<'v> {
    ghost use Rattle.ndc_explain_picture.specs.Picture.{Drawn};

    ghost Value = { Drawn };

    ghost view = { λ drawing. record { blocks = drawing.blocks.items; layout = drawing.layout; keys = drawing.keys } };
}

/// What of a view is drawn.
fn drawn<'v>(
    alloc: Global,
    clusters: &Option<Clusters>,
    view: &'v View,
) -> Result<Drawing<'v>, OutOfMemory>
    ensures { IfOk result (λ drawing. drawing ≡ drawn clusters.now view.now) }
{
    let blocks = blocks_of(alloc, view.batches.as_slice())?;
    let layout = layout_of(alloc, clusters, blocks.as_slice())?;
    let keys = standing(alloc, view)?;
    Ok(Drawing {
        blocks,
        layout,
        keys,
    })
}

impl<'v> Drawing<'v> {
    ghost use Rattle.std.specs.Prelude.{◌≡◌, ◌++◌, Some, map, OnOk};
    ghost use Rattle.std.specs.List.{flat_map};
    ghost use Rattle.std.specs.Option.{option_copied};
    ghost use Rattle.ndc_explain_picture.specs.Blocks.{summary_of};
    ghost use Rattle.ndc_explain_picture.specs.Picture.{box_at, box_of, lanes_text, lines_of, lines_to};

    /// Appends the lines to a block at this place.
    fn push_lines_to(
        &self,
        alloc: Global,
        text: &mut Vec<u8>,
        batches: &[&Batch],
        summary: Summary,
        place: Place,
    ) -> Result<(), OutOfMemory>
        ensures { OnOk result (text.new.items ≡ text.old.items ++ lines_to self.now (map (λ b. b.now) batches.now) summary (Some place)) }
    {
        let places = &self.layout.places;
        let class = class_of(&self.keys, summary.first);
        push_line(text, class, places.place_at(summary.parent), place)?;
        push_line(text, "carrier", places.place_at(summary.carrier), place)?;
        push_arrows(text, places, place, copies_of(alloc, batches)?.as_slice())
    }

    /// Appends the lines to a block.
    fn push_lines_of(
        &self,
        alloc: Global,
        text: &mut Vec<u8>,
        batches: &[&Batch],
    ) -> Result<(), OutOfMemory>
        ensures { OnOk result (text.new.items ≡ text.old.items ++ lines_of self.now (map (λ b. b.now) batches.now) (summary_of (map (λ b. b.now) batches.now))) }
    {
        let Some(summary) = summary_of(batches) else {
            return Ok(());
        };
        match self.layout.places.place_at(Some(summary.first)) {
            None => Ok(()),
            Some(place) => self.push_lines_to(alloc, text, batches, summary, *place),
        }
    }

    /// Appends the lines to each block.
    fn push_lines(&self, alloc: Global, text: &mut Vec<u8>) -> Result<(), OutOfMemory>
        ensures { OnOk result (text.new.items ≡ text.old.items ++ flat_map (λ block. lines_of self.now block (summary_of block)) self.now.blocks) }
    {
        for block in self.blocks.as_slice() {
            self.push_lines_of(alloc, text, block.as_slice())?;
        }
        Ok(())
    }

    /// Appends the box of a block at this place, with its text.
    fn push_box_at(
        &self,
        alloc: Global,
        text: &mut Vec<u8>,
        batches: &[&Batch],
        summary: Summary,
        place: Place,
    ) -> Result<(), OutOfMemory>
        ensures { OnOk result (text.new.items ≡ text.old.items ++ box_at self.now (map (λ b. b.now) batches.now) summary (Some place)) }
    {
        push_box(text, class_of(&self.keys, summary.first), summary, place)?;
        push_events(
            alloc,
            text,
            plus(place.left, 10),
            events_of(alloc, batches)?.as_slice(),
        )
    }

    /// Appends the box of a block.
    fn push_box_of(
        &self,
        alloc: Global,
        text: &mut Vec<u8>,
        batches: &[&Batch],
    ) -> Result<(), OutOfMemory>
        ensures { OnOk result (text.new.items ≡ text.old.items ++ box_of self.now (map (λ b. b.now) batches.now) (summary_of (map (λ b. b.now) batches.now))) }
    {
        let Some(summary) = summary_of(batches) else {
            return Ok(());
        };
        match self.layout.places.place_at(Some(summary.first)) {
            None => Ok(()),
            Some(place) => self.push_box_at(alloc, text, batches, summary, *place),
        }
    }

    /// Appends the boxes of the blocks.
    fn push_boxes(&self, alloc: Global, text: &mut Vec<u8>) -> Result<(), OutOfMemory>
        ensures { OnOk result (text.new.items ≡ text.old.items ++ flat_map (λ block. box_of self.now block (summary_of block)) self.now.blocks) }
    {
        for block in self.blocks.as_slice() {
            self.push_box_of(alloc, text, block.as_slice())?;
        }
        Ok(())
    }

    /// Appends the heads of the lanes, the lines, and the boxes over them.
    fn push_lanes(
        &self,
        alloc: Global,
        text: &mut Vec<u8>,
        clusters: &Option<Clusters>,
    ) -> Result<(), OutOfMemory>
        ensures { OnOk result (text.new.items ≡ text.old.items ++ lanes_text clusters.now self.now) }
    {
        push_heads(text, clusters, self.layout.heads())?;
        self.push_lines(alloc, text)?;
        self.push_boxes(alloc, text)
    }
}

/// Appends the heads of lanes.
fn push_heads(
    text: &mut Vec<u8>,
    clusters: &Option<Clusters>,
    heads: &[Head],
) -> Result<(), OutOfMemory>
    ensures { OnOk result (text.new.items ≡ text.old.items ++ flat_map (head_text clusters.now) heads.now) }
{
    for head in heads {
        push_head(text, clusters, *head)?;
    }
    Ok(())
}

/// Appends the picture before its lanes.
fn push_frame(
    text: &mut Vec<u8>,
    domain: &Name,
    workflow: &Name,
    layout: &Layout,
) -> Result<(), OutOfMemory>
    ensures { OnOk result (text.new.items ≡ text.old.items ++ frame_text domain.now workflow.now layout.now) }
{
    push_size(text, layout.width(), layout.depth())?;
    push_style(text)?;
    push_title(text, domain.as_bytes(), workflow.as_bytes())?;
    push_legend(text)
}

/// Appends the picture with this drawing.
fn push_drawing(
    alloc: Global,
    text: &mut Vec<u8>,
    clusters: &Option<Clusters>,
    dump: &Dump,
    drawing: &Drawing,
) -> Result<(), OutOfMemory>
    ensures { OnOk result (text.new.items ≡ text.old.items ++ picture_with clusters.now dump.now drawing.now) }
{
    push_frame(text, &dump.domain, &dump.workflow, &drawing.layout)?;
    drawing.push_lanes(alloc, text, clusters)?;
    text.extend_from_slice(b"</svg>\n")
}

/// Draws a dump as an SVG document: a lane for each cluster that is named, or else for each version; in it the batches in key order, those in a row between two
/// forks as one box with its first events; a line from each box to the boxes of its children, and of the
/// run that continues its own; and an arrow from each signal to its copies. The boxes and lines of current branches are
/// wide, the others dashed.
///
/// It takes time of the dump.
pub fn push_picture(
    alloc: Global,
    text: &mut Vec<u8>,
    clusters: &Option<Clusters>,
    dump: &Dump,
) -> Result<(), OutOfMemory>
    ensures { OnOk result (text.new.items ≡ text.old.items ++ picture_of clusters.now dump.now) }
{
    let drawing = drawn(alloc, clusters, &dump.view)?;
    push_drawing(alloc, text, clusters, dump, &drawing)
}
