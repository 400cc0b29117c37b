//! The layout of a picture: a lane for each cluster, or for each version that none is known to write with, and in it one block below the other, each below its parent's.
ghost use Rattle.std.specs.Prelude.{◌≡◌, ◌≤◌, IfOk, map};
ghost use Rattle.std.specs.Option.{option_copied};
ghost use Rattle.ndc_model_sets.specs.Sets.{earlier_of};
ghost use Rattle.ndc_explain_picture.specs.Layout.{depth_of, height_for, lane_number, layout_of, lines_for, plus, width_of};

use crate::blocks::{Block, kinds_of, summary_of};
use crate::places::{Place, Places, bottom_of};
use indexmap::IndexMap;
use ndc_domain::Clusters;
use ndc_event::{Batch, BatchKey, OutOfMemory};
use ndc_explain::Summary;
use std::alloc::Global;
use std::marker::Model;

/// The sum of two lengths; the greatest that can be told where it is longer.
pub(crate) fn plus(one: u64, two: u64) -> u64
    ensures { result ≡ plus one two }
{
    one.saturating_add(two)
}

/// How many lines a block has for so many events.
fn lines_for(events: usize) -> u64
    ensures lines { result ≡ lines_for events }
    ensures few { result ≤ 7 }
{
    if 6 < events { 7 } else { events as u64 }
}

/// How high a block of so many events is.
fn height_for(events: usize) -> u64
    ensures { result ≡ height_for events }
{
    46 + lines_for(events) * 15
}

/// The number of the lane of a version: the initial version of the cluster that writes with it, or the version itself
/// where none is known.
#[tactic(auto, unfolding(crate::specs::Layout::lane_number))]
fn lane_number(clusters: &Option<Clusters>, version: u64) -> u64
    ensures { result ≡ lane_number clusters.now version }
{
    let Some(clusters) = clusters else {
        return version;
    };
    match clusters.writer_of(version) {
        None => version,
        Some(_) => version % clusters.increment(),
    }
}

/// The parent's key, or else the carrier's.
fn earlier_of(parent: Option<BatchKey>, carrier: Option<BatchKey>) -> Option<BatchKey>
    ensures { result ≡ earlier_of parent carrier }
{
    match parent {
        Some(parent) => Some(parent),
        None => carrier,
    }
}

/// The head of a lane.
#[derive(Clone, Copy, Debug)]
pub(crate) struct Head {
    /// The version of its first block.
    pub(crate) version: u64,
    /// Where it begins.
    pub(crate) left: u64,
}

/// A lane.
#[derive(Clone, Copy, Debug, Drop)]
pub(crate) struct Lane {
    /// Where it begins.
    left: u64,
    /// Where its last block ends.
    bottom: u64,
}

/// Blocks in their places.
#[derive(Drop)]
pub(crate) struct Layout {
    /// The number of the last lane.
    number: u64,
    /// Where the last lane begins.
    left: u64,
    /// Where the last block of it ends.
    bottom: u64,
    /// Where the lane at the right begins.
    right: u64,
    /// Where the deepest block ends.
    depth: u64,
    heads: Vec<Head>,
    lanes: IndexMap<u64, Lane>,
    pub(crate) places: Places,
}

impl Model for Layout {
    ghost use Rattle.ndc_explain_picture.specs.Layout.{Layouted};

    ghost Value = { Layouted };

    ghost view = { λ layout. record {
      number = layout.number;
      left = layout.left;
      bottom = layout.bottom;
      right = layout.right;
      depth = layout.depth;
      heads = layout.heads.items;
      lanes = layout.lanes.entries;
      places = layout.places;
    } };
}

/// Where a lane begins and ends.
fn copied(lane: Option<&Lane>) -> Option<Lane>
    ensures { result ≡ option_copied lane.entry }
{
    lane.copied()
}

impl Layout {
    ghost use Rattle.std.specs.Prelude.{◌≡◌, map, OnOk};
    ghost use Rattle.ndc_explain_picture.specs.Layout.{depth_of, in_lane, lane_of, no_lane, place_for, top_for, width_of, with_block, with_blocks, with_laid, with_place};

    /// No lane yet.
    fn new(alloc: Global) -> Layout
        ensures { result ≡ no_lane }
    {
        Layout {
            number: 0,
            left: 0,
            bottom: 0,
            right: 0,
            depth: 0,
            heads: Vec::new(alloc),
            lanes: IndexMap::new(alloc),
            places: Places::new(alloc),
        }
    }

    /// The heads of the lanes.
    pub(crate) fn heads(&self) -> &[Head]
        ensures { result.now ≡ self.now.heads }
    {
        self.heads.as_slice()
    }

    /// Goes to this lane, or to a new one at the right.
    fn go_to(&mut self, number: u64, version: u64, lane: Option<Lane>) -> Result<(), OutOfMemory>
        ensures { OnOk result (self.new ≡ in_lane number version lane self.old) }
    {
        self.number = number;
        match lane {
            Some(lane) => {
                self.left = lane.left;
                self.bottom = lane.bottom;
            }
            None => {
                let left = plus(self.right, 340);
                self.heads.push(Head { version, left })?;
                self.left = left;
                self.bottom = 40;
                self.right = left;
            }
        }
        Ok(())
    }

    /// Goes to the lane of a version.
    fn enter(&mut self, clusters: &Option<Clusters>, version: u64) -> Result<(), OutOfMemory>
        ensures { OnOk result (self.new ≡ lane_of clusters.now version self.old) }
    {
        let number = lane_number(clusters, version);
        let lane = copied(self.lanes.get(&number));
        self.go_to(number, version, lane)
    }

    /// Where a block goes that comes after this batch.
    fn top_for(&self, earlier: Option<BatchKey>) -> u64
        ensures { result ≡ top_for earlier self.now }
    {
        let above = bottom_of(self.places.place_at(earlier));
        plus(self.bottom.max(above), 28)
    }

    /// The place of a block of this height that comes after this batch.
    fn place_for(&self, earlier: Option<BatchKey>, height: u64) -> Place
        ensures { result ≡ place_for earlier height self.now }
    {
        let top = self.top_for(earlier);
        Place {
            left: self.left,
            top,
            bottom: plus(top, height),
        }
    }

    /// Puts batches to a place as one block.
    fn put(&mut self, batches: &[&Batch], place: Place) -> Result<(), OutOfMemory>
        ensures { OnOk result (self.new ≡ with_place (map (λ b. b.now) batches.now) place self.old) }
    {
        let lane = Lane {
            left: self.left,
            bottom: place.bottom,
        };
        self.bottom = place.bottom;
        self.depth = self.depth.max(place.bottom);
        self.lanes.insert(self.number, lane)?;
        self.places.add_batches(place, batches)
    }

    /// Puts batches as one block into the lane.
    fn lay(
        &mut self,
        alloc: Global,
        batches: &[&Batch],
        summary: Summary,
    ) -> Result<(), OutOfMemory>
        ensures { OnOk result (self.new ≡ with_laid (map (λ b. b.now) batches.now) summary self.old) }
    {
        let kinds = kinds_of(alloc, batches)?;
        let height = height_for(kinds.len());
        let place = self.place_for(earlier_of(summary.parent, summary.carrier), height);
        self.put(batches, place)
    }

    /// Puts batches as one block into the lane of its version.
    fn add(
        &mut self,
        alloc: Global,
        clusters: &Option<Clusters>,
        batches: &[&Batch],
        summary: Option<Summary>,
    ) -> Result<(), OutOfMemory>
        ensures { OnOk result (self.new ≡ with_block clusters.now (map (λ b. b.now) batches.now) summary self.old) }
    {
        match summary {
            None => Ok(()),
            Some(summary) => {
                self.enter(clusters, summary.first.version)?;
                self.lay(alloc, batches, summary)
            }
        }
    }

    /// Puts each block into the lane of its version.
    fn add_all(
        &mut self,
        alloc: Global,
        clusters: &Option<Clusters>,
        blocks: &[Block],
    ) -> Result<(), OutOfMemory>
        ensures { OnOk result (self.new ≡ with_blocks clusters.now blocks.now self.old) }
    {
        for block in blocks {
            let batches = block.as_slice();
            self.add(alloc, clusters, batches, summary_of(batches))?;
        }
        Ok(())
    }

    /// How wide a picture is.
    pub(crate) fn width(&self) -> u64
        ensures { result ≡ width_of self.now }
    {
        plus(self.right, 330)
    }

    /// How high a picture is.
    pub(crate) fn depth(&self) -> u64
        ensures { result ≡ depth_of self.now }
    {
        plus(self.depth.max(180), 20)
    }
}

/// The layout of blocks.
pub(crate) fn layout_of(
    alloc: Global,
    clusters: &Option<Clusters>,
    blocks: &[Block],
) -> Result<Layout, OutOfMemory>
    ensures { IfOk result (λ layout. layout ≡ layout_of clusters.now blocks.now) }
{
    let mut layout = Layout::new(alloc);
    layout.add_all(alloc, clusters, blocks)?;
    Ok(layout)
}
