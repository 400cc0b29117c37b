use crate::cell::Cell;
use crate::fresh::Fresh;
use crate::home::Desk;
use ndc_event::OutOfMemory;
use ndc_model_cells::{JobReply, ShardJob};
use std::marker::Model;

/// Cells by shard. After a round that was done in pieces, messages that each of them has written stand beside them,
/// until they are taken.
pub(crate) struct Cells<C: Cell + Drop> {
    cells: Vec<C>,
    fresh: Option<Vec<Fresh>>,
}

impl<C: Cell + Drop> Model for Cells<C> {
    ghost use Rattle.std.specs.Prelude.{List, map, IfSome};
    ghost use Rattle.ndc_cluster.specs.Rounds.{AreFresh};
    ghost use Rattle.ndc_model_cells.specs.Cells.{Cell as ModelCell};

    ghost Value = { List ModelCell };

    ghost view = { λ cells. map C.cell cells.cells.items };

    ghost invariant = { λ cells.
        IfSome cells.fresh (λ fresh. AreFresh fresh.items (map C.cell cells.cells.items)) };
}

impl<C: Cell + Drop> Drop for Cells<C> {
    fn drop(self) {
        let Cells {
            cells: _cells,
            fresh: _fresh,
        } = self;
    }
}

impl<C: Cell + Drop> Cells<C> {
    ghost use Rattle.std.specs.Prelude.{◌≡◌, ◌<◌, length, map, IfSome, IfOk, OnOk};
    ghost use Rattle.ndc_cluster.specs.Rounds.{AreFresh};
    ghost use Rattle.ndc_model_cells.specs.Jobs.{cell_for, cells_behind, reply_to};

    /// Cells, and what they have written from some place on, where it is at hand.
    pub(crate) fn new(cells: Vec<C>, fresh: Option<Vec<Fresh>>) -> Cells<C>
        requires { IfSome fresh (λ fresh. AreFresh fresh.items (map C.cell cells.items)) }
        ensures { result ≡ map C.cell cells.items }
    {
        Cells { cells, fresh }
    }

    /// The cells. Takes no memory.
    pub(crate) fn as_slice(&self) -> &[C]
        ensures { map C.cell result.now ≡ self.now }
    {
        self.cells.as_slice()
    }

    /// The cells alone.
    pub(crate) fn into_vec(self) -> Vec<C>
        ensures { map C.cell result.items ≡ self }
    {
        let Cells {
            cells,
            fresh: _fresh,
        } = self;
        cells
    }

    /// What is at hand of what the cells have written; then it is gone. Takes no memory.
    pub(crate) fn take_fresh(&mut self) -> Option<Vec<Fresh>>
        ensures fresh { IfSome result (λ fresh. AreFresh fresh.items self.old) }
        ensures same { self.new ≡ self.old }
    {
        self.fresh.take()
    }

    /// The cell of its shard does a job. What is at hand of what the cells have written is gone.
    pub(crate) fn do_one(&mut self, desk: &Desk, asked: &ShardJob) -> Result<JobReply, OutOfMemory>
        requires shard { asked.now.shard < length self.old }
        requires allowed { C.allows desk.now asked.now.job (cell_for asked.now.shard self.old) }
        ensures cells { OnOk result (self.new ≡ cells_behind desk.now asked.now self.old) }
        ensures reply { IfOk result (λ reply.
            reply ≡ reply_to desk.now asked.now.job (cell_for asked.now.shard self.old)) }
    {
        self.fresh = None;
        let cell = &mut self.cells[asked.shard as usize];
        let reply = cell.do_job(desk, &asked.job)?;
        Ok(reply)
    }
}
