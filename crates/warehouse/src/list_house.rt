use crate::apply::enter_all;
use crate::event::Event;
use crate::life::{Life, State};
use crate::masses::mass_after;
use crate::prepare::{change_count, prepare};
use crate::seen::SeenStates;
use crate::totals::{count_total, integral_total, weight_total};
use crate::{Committed, House, ListFault, NoVersion, QueryFault};
use bw_types::{Kind, Params, Query, Refusal, Row};
use history_laws::answers_are_bounded;
use session_book::first_refusal;
use std::alloc::Global;
use std::collections::BTreeMap;
use std::marker::Model;

/// A warehouse in memory.
#[derive(Drop)]
pub struct ListHouse {
    alloc: Global,
    params: Params,
    // The history.
    batches: Vec<Vec<Event>>,
    // All lives of all ids, in order of adding. Each object is kept here alone.
    lives: Vec<Life>,
    // An id that is not in the map was never added.
    states: BTreeMap<u64, State>,
    // The masses of all objects ever added.
    mass: u128,
    // The adds, the withdrawals and the batches.
    events: u32,
}

impl Model for ListHouse {
    ghost use Rattle.warehouse.specs.ListState.{ListState};

    ghost Value = { ListState };

    ghost use Rattle.warehouse.specs.Standing.{state_of, IsStanding};

    ghost view = { state_of };

    ghost invariant = { IsStanding };
}

impl ListHouse {
    ghost use Rattle.std.specs.Prelude.{◌≡◌, ◌+◌, ◌<◌, ◌≤◌, None, [], ◌∷◌, ◌++◌, IsTrue, IfOk, IfErr, OnErr, MatchResult};
    ghost use Rattle.std.specs.List.{list_all};
    ghost use Rattle.bw_types.specs.Answers.{answer};
    ghost use Rattle.bw_types.specs.Fits.{IsInRange, row_fits, query_fits};
    ghost use Rattle.bw_types.specs.History.{flat, last_version};
    ghost use Rattle.bw_types.specs.Refusals.{first_refusal};
    ghost use Rattle.warehouse.specs.Causes.{IsCausedBy};

    /// An empty warehouse for these params. It takes no memory.
    pub fn new(alloc: Global, params: &Params) -> ListHouse
        requires { IsInRange params.now }
        ensures { result ≡ record { params = params.now; history = [] } }
    {
        ListHouse {
            alloc,
            params: *params,
            batches: Vec::new(alloc),
            lives: Vec::new(alloc),
            states: BTreeMap::new(alloc),
            mass: 0,
            events: 0,
        }
    }

    /// The number of the last version; 0 before the first commit.
    pub fn last(&self) -> u32
        ensures { result ≡ last_version self.now.history }
    {
        self.batches.len() as u32
    }

    /// Puts the batch of rows last in the history and answers its version, or gives its first refusal.
    ///
    /// Rows are taken in order, a move as a withdrawal and then an add. `Refused` comes exactly where
    /// the batch has a first refusal. After `Refused` and after `NoMemory` all is as before.
    pub fn commit(&mut self, rows: &[Row]) -> Result<u32, ListFault>
        requires { IsTrue (list_all (row_fits self.old.params) rows.now) }
        ensures accepted { IfOk result (λ version. (first_refusal self.old.params self.old.history rows.now ≡ None) × (version ≡ last_version self.old.history + 1)
            × (self.new ≡ record { params = self.old.params; history = self.old.history ++ flat rows.now ∷ [] })) }
        ensures refused { IfErr result (IsCausedBy (first_refusal self.old.params self.old.history rows.now)) }
        ensures unchanged { OnErr result (self.new ≡ self.old) }
        ensures params { self.new.params ≡ self.old.params }
    {
        if let Some(refusal) = self.first_refusal(rows)? {
            return Err(ListFault::Refused(refusal));
        }
        self.put(rows)
    }

    /// What the query answers at the version, or `NoVersion` exactly where that is above the last one.
    /// It takes no memory.
    pub fn query(&self, query: &Query, version: u32) -> Result<i128, NoVersion>
        requires { IsTrue (query_fits self.now.params query.now) }
        ensures { MatchResult result (λ x. (version ≤ last_version self.now.history) × (x ≡ answer self.now.params self.now.history version query.now))
            (λ e. (last_version self.now.history < version) × (e.last ≡ last_version self.now.history)) }
    {
        let last = self.last();
        if last < version {
            return Err(NoVersion { last });
        }
        let dims = self.params.dims;
        match query.kind {
            Kind::Sum => Ok(weight_total(&self.lives, dims, query, version)),
            Kind::Count => Ok(count_total(&self.lives, dims, query, version)),
            Kind::Integral => {
                answers_are_bounded();
                Ok(integral_total(&self.lives, &self.params, query, version))
            }
        }
    }

    fn first_refusal(&self, rows: &[Row]) -> Result<Option<Refusal>, ListFault>
        requires { IsTrue (list_all (row_fits self.now.params) rows.now) }
        ensures ok { IfOk result (λ refusal. refusal ≡ first_refusal self.now.params self.now.history rows.now) }
        ensures err { IfErr result (λ e. e ≡ ListFault.NoMemory) }
    {
        let mut seen = SeenStates {
            states: &self.states,
        };
        match first_refusal(
            self.alloc,
            &mut seen,
            &self.params,
            self.events,
            self.mass,
            rows,
        ) {
            Ok(refusal) => Ok(refusal),
            Err(_) => Err(ListFault::NoMemory),
        }
    }

    // Puts a batch last that has no refusal. All memory is taken first, so that it is put whole or not
    // at all.
    fn put(&mut self, rows: &[Row]) -> Result<u32, ListFault>
        requires fit { IsTrue (list_all (row_fits self.old.params) rows.now) }
        requires accepted { first_refusal self.old.params self.old.history rows.now ≡ None }
        ensures ok { IfOk result (λ version. (version ≡ last_version self.old.history + 1)
            × (self.new ≡ record { params = self.old.params; history = self.old.history ++ flat rows.now ∷ [] })) }
        ensures err { IfErr result (λ e. e ≡ ListFault.NoMemory) }
        ensures unchanged { OnErr result (self.new ≡ self.old) }
    {
        let version = self.batches.len() as u32 + 1;
        let count = change_count(rows);
        let mut events = Vec::with_capacity(self.alloc, count)?;
        prepare(&mut self.batches, &mut self.lives, &mut self.states, rows)?;
        self.mass = mass_after(self.mass, &self.params, rows);
        self.events += count as u32 + 1;
        enter_all(
            &mut self.lives,
            &mut self.states,
            &mut events,
            rows,
            version,
        );
        let _ = self.batches.push(events);
        Ok(version)
    }
}

// What lasts of a house in memory is the house, of which a crash leaves nothing.
impl House for ListHouse {
    type Device = ListHouse;

    ghost use Rattle.std.specs.Prelude.{◌≡◌, ⊤, true};

    ghost Image = { ⊤ };

    ghost Moments = { ⊤ };

    ghost params = { λ house. house.params };

    ghost device = { λ house. house };

    ghost stands = { λ whole house params h. house.history ≡ h };

    ghost tells = { λ house. true };

    ghost image = { λ house. tt };

    ghost moments = { λ house. tt };

    ghost clock = { λ moments. 0 };

    ghost now = { λ moments x. ⊥ };

    ghost since = { λ moments t x. ⊥ };

    ghost keeps = { λ x params h. ⊤ };

    ghost reads = { λ house. 0 };

    ghost faults = { λ house. 0 };

    ghost lacks_pages = { λ house params h rows. ⊥ };

    ghost is_current = { λ house. ⊤ };

    ghost charge = { λ house. 0 };

    ghost need = { λ params h rows. 0 };

    ghost rises_within = { λ house params h rows after. ⊤ };

    ghost cost = { λ params h query. 0 };

    fn params(&self) -> Params {
        self.params
    }

    fn last(&self) -> u32 {
        ListHouse::last(self)
    }

    fn query(&mut self, query: &Query, version: u32) -> Result<i128, QueryFault> {
        match ListHouse::query(self, query, version) {
            Ok(value) => Ok(value),
            Err(NoVersion { last }) => Err(QueryFault::NoVersion(last)),
        }
    }

    fn commit(self, rows: &[Row]) -> Committed<ListHouse, ListHouse> {
        let mut house = self;
        match ListHouse::commit(&mut house, rows) {
            Ok(version) => Committed::Done { house, version },
            Err(ListFault::Refused(refusal)) => Committed::Refused { house, refusal },
            Err(ListFault::NoMemory) => Committed::NoMemory { house },
        }
    }

    fn into_device(self) -> ListHouse {
        self
    }
}
