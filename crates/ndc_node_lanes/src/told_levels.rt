use ndc_event::OutOfMemory;
use std::alloc::Global;
use std::marker::Model;

/// What came of a level that a reader told.
#[derive(Clone, Copy, Debug, PartialEq, Eq)]
pub enum Telling {
    /// It was told under the present epoch: the reader's level is now at least this one.
    Noted,
    /// It was told under another epoch, and counts as what is trimmed: nothing changed.
    OtherEpoch,
    /// It is above the queue's length: the source has lost some of what it wrote. Nothing changed.
    Ahead,
}

/// What a source keeps of one shard for its readers: the epoch of its queue, and for each reader the greatest level that
/// it has told under this epoch to be done. Readers are counted from 0.
#[derive(Debug, Drop)]
pub struct ToldLevels {
    epoch: u64,
    told: Vec<u64>,
}

impl Model for ToldLevels {
    ghost use Rattle.ndc_node_lanes.specs.Levels.{LevelsValue};

    ghost Value = { LevelsValue };

    ghost view = { λ levels. record { epoch = levels.epoch; told = levels.told.items } };
}

impl ToldLevels {
    ghost use Rattle.std.specs.Prelude.{◌≡◌, ◌<◌, length, slice_index, replicate, IfOk};
    ghost use Rattle.ndc_node_lanes.specs.Levels.{after_telling, at_epoch, telling_of, trim_level};

    /// So many readers, none of which has told anything under this epoch.
    pub fn new(alloc: Global, epoch: u64, readers: usize) -> Result<ToldLevels, OutOfMemory>
        ensures { IfOk result (λ levels.
            levels ≡ record { epoch = epoch; told = replicate readers 0 }) }
    {
        Ok(ToldLevels {
            epoch,
            told: vec![in alloc; 0; readers]?,
        })
    }

    /// The epoch of the source's queue.
    pub fn epoch(&self) -> u64
        ensures { result ≡ self.now.epoch }
    {
        self.epoch
    }

    /// How many readers there are.
    pub fn readers(&self) -> usize
        ensures { result ≡ length self.now.told }
    {
        self.told.len()
    }

    /// The greatest level that a reader has told under the present epoch, or what was trimmed when the epoch began. The
    /// reader's number is below how many there are.
    pub fn level(&self, reader: usize) -> u64
        requires { reader < length self.now.told }
        ensures { result ≡ slice_index self.now.told reader }
    {
        self.told[reader]
    }

    /// A reader tells under an epoch that all before this level is done; the queue has so many entries. Under the present
    /// epoch the reader's level becomes the greater of it and this one ([`Telling::Noted`]). One of another epoch
    /// ([`Telling::OtherEpoch`]) or above these ([`Telling::Ahead`]) changes nothing. The reader's number is below
    /// how many there are. Takes no memory.
    pub fn tell(&mut self, reader: usize, epoch: u64, level: u64, entries: u64) -> Telling
        requires { reader < length self.old.told }
        ensures telling { result ≡ telling_of epoch level entries self.old }
        ensures levels { self.new ≡ after_telling reader level result self.old }
    {
        if epoch != self.epoch {
            return Telling::OtherEpoch;
        }
        if entries < level {
            return Telling::Ahead;
        }
        self.told[reader] = self.told[reader].max(level);
        Telling::Noted
    }

    /// The queue has another epoch, under which nothing was told: all readers are where it is trimmed. Takes no memory.
    pub fn begin(&mut self, epoch: u64, trimmed: u64)
        ensures { self.new ≡ at_epoch epoch trimmed self.old }
    {
        self.epoch = epoch;
        self.told.fill(trimmed);
    }

    /// The least level of all readers, up to where the queue may be trimmed. None exactly where there is no reader.
    pub fn trim_level(&self) -> Option<u64>
        ensures { result ≡ trim_level self.now }
    {
        self.told.iter().copied().min()
    }
}
