ghost use Rattle.std.specs.Prelude.{◌≡◌, ◌≢◌, Some, None, Err, MatchResult, IfErr, OnErr, OnOk};
ghost use Rattle.std.specs.Option.{option_map};
ghost use Rattle.ndc_model.specs.Moves.{rewound};
ghost use Rattle.ndc_model.specs.World.{flight_at, with_flight};
ghost use Rattle.ndc_queue.specs.Lists.{after_loss, after_move, after_repeat};
ghost use Rattle.ndc_queue.specs.declared.flight.FlightError.TheVariants as error;

use crate::pulling::link_place;
use crate::replication::Replication;
use ndc_cluster::Cell;
use ndc_domain::ClusterNo;
use ndc_queue::{FlightError, NoSuchPlace};

impl<C: Cell + Drop> Replication<C> {
    /// Loses the message at a place in flight from a source to a reader, for a shard. Refused exactly where there is none,
    /// and then all stays as it was. Takes no memory.
    pub fn lose(
        &mut self,
        reader: ClusterNo,
        source: ClusterNo,
        shard: usize,
        place: usize,
    ) -> Result<(), NoSuchPlace>
        ensures lost { MatchResult result
            (λ _. option_map (λ flight. with_flight reader source shard flight self.old) (after_loss place (flight_at reader source shard self.old)) ≡ Some self.new)
            (λ _. after_loss place (flight_at reader source shard self.old) ≡ None) }
        ensures unchanged { OnErr result (self.new ≡ self.old) }
    {
        let Some(at) = link_place(self.links.as_slice(), reader, source) else {
            return Err(NoSuchPlace);
        };
        let link = &mut self.links[at];
        if link.lanes().len() <= shard {
            return Err(NoSuchPlace);
        }
        match link.lose(shard, place) {
            Ok(()) => {}
            Err(error) => return Err(error),
        }
        Ok(())
    }

    /// Puts a copy of the message at a place in flight from a source to a reader, for a shard, last. Refused with
    /// [`FlightError::NoSuchPlace`] exactly where there is none, [`FlightError::Memory`] where memory runs out. Where it is
    /// refused, all stays as it was.
    pub fn repeat(
        &mut self,
        reader: ClusterNo,
        source: ClusterNo,
        shard: usize,
        place: usize,
    ) -> Result<(), FlightError>
        ensures repeated { OnOk result
            (option_map (λ flight. with_flight reader source shard flight self.old) (after_repeat place (flight_at reader source shard self.old)) ≡ Some self.new) }
        ensures refused { IfErr result (λ e. e ≢ error.Memory → after_repeat place (flight_at reader source shard self.old) ≡ None) }
        ensures unchanged { OnErr result (self.new ≡ self.old) }
    {
        let Some(at) = link_place(self.links.as_slice(), reader, source) else {
            return Err(FlightError::NoSuchPlace);
        };
        let link = &mut self.links[at];
        if link.lanes().len() <= shard {
            return Err(FlightError::NoSuchPlace);
        }
        match link.repeat(shard, place) {
            Ok(()) => {}
            Err(error) => return Err(error),
        }
        Ok(())
    }

    /// Takes the message at one place in flight from a source to a reader, for a shard, out and puts it back so that it
    /// stands at another. Refused exactly where one of the two is not a place, and then all stays as it was. Takes no
    /// memory.
    pub fn move_to(
        &mut self,
        reader: ClusterNo,
        source: ClusterNo,
        shard: usize,
        from: usize,
        to: usize,
    ) -> Result<(), NoSuchPlace>
        ensures moved { MatchResult result
            (λ _. option_map (λ flight. with_flight reader source shard flight self.old) (after_move from to (flight_at reader source shard self.old)) ≡ Some self.new)
            (λ _. after_move from to (flight_at reader source shard self.old) ≡ None) }
        ensures unchanged { OnErr result (self.new ≡ self.old) }
    {
        let Some(at) = link_place(self.links.as_slice(), reader, source) else {
            return Err(NoSuchPlace);
        };
        let link = &mut self.links[at];
        if link.lanes().len() <= shard {
            return Err(NoSuchPlace);
        }
        match link.move_to(shard, from, to) {
            Ok(()) => {}
            Err(error) => return Err(error),
        }
        Ok(())
    }

    /// What was read of a source by a reader and is not done is to be read again, for every shard. Takes no memory.
    pub fn rewind(&mut self, reader: ClusterNo, source: ClusterNo)
        ensures { self.new ≡ rewound reader source self.old }
    {
        let Some(at) = link_place(self.links.as_slice(), reader, source) else {
            return;
        };
        let link = &mut self.links[at];
        link.rewind();
    }
}
