use crate::driving::{Stop, text_of};
use crate::journal::Journal;
use ndc_node_lines::Session;

/// How many bytes of units there may be before a store takes their place.
const LEAST_UNITS: u64 = 65_536;

/// Keeps what changes of a node: units at the end of its last store, and a new store in their place where they outgrow it.
#[derive(Drop)]
pub(crate) struct Keeper {
    /// How many bytes the last store has.
    store: u64,
    /// How many bytes of units stand after it.
    units: u64,
}

impl Keeper {
    /// Nothing is kept.
    pub(crate) fn new() -> Keeper {
        Keeper { store: 0, units: 0 }
    }

    /// So many bytes are kept of a session.
    pub(crate) fn after(session: &Session, kept: u64) -> Result<Keeper, Stop> {
        let store = text_of(session.store())?.len() as u64;
        Ok(Keeper {
            store,
            units: kept.saturating_sub(store),
        })
    }

    /// Keeps the units that are not kept yet: they are on disk when the call returns.
    pub(crate) fn keep<J: Journal>(
        &mut self,
        session: &mut Session,
        journal: &mut J,
    ) -> Result<(), Stop> {
        for _unit in 0..u64::MAX {
            let Some(unit) = session.changes() else {
                return self.renew_where_due(session, journal);
            };
            if journal.keep(unit).is_err() {
                return Err(Stop::NotKept);
            }
            self.units = self.units.saturating_add(unit.len() as u64);
            let number = session.next_unit();
            session.stored(number);
        }
        Ok(())
    }

    /// A store takes the place of all that is kept, where its units are long, and more than twice as long as the last store.
    fn renew_where_due<J: Journal>(
        &mut self,
        session: &Session,
        journal: &mut J,
    ) -> Result<(), Stop> {
        if self.units <= LEAST_UNITS || self.units / 2 <= self.store {
            return Ok(());
        }
        self.renew(session, journal)
    }

    /// A store takes the place of all that is kept.
    pub(crate) fn renew<J: Journal>(
        &mut self,
        session: &Session,
        journal: &mut J,
    ) -> Result<(), Stop> {
        let text = text_of(session.store())?;
        if journal.replace(text.as_slice()).is_err() {
            return Err(Stop::NotKept);
        }
        self.store = text.len() as u64;
        self.units = 0;
        Ok(())
    }
}
