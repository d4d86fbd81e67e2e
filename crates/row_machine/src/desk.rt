//! The machine of rows and replies: a history and sixteen sessions, and the step on one line.

ghost use Rattle.std.specs.Prelude.{[], ◌≡◌, ◌≤◌, IsTrue, Some, None};
ghost use Rattle.bw_types.specs.Fits.{IsInRange, row_fits, query_fits};
ghost use Rattle.csv_rows.specs.Input.{InputFits, input};
ghost use Rattle.csv_rows.specs.Machine.{commit_step, rows_of};
ghost use Rattle.bw_types.specs.Refusals.{first_refusal};
ghost use Rattle.ports.specs.Count.{Rose};
ghost use Rattle.row_machine.specs.DeskState.{OnlyFitting};

use crate::ending::{Ending, RunEnd};
use bw_types::{Params, Query, Row};
use csv_rows::{Input, Reply, RowReader};
use session_book::{Sessions, StageRow};
use std::alloc::Global;
use warehouse::{Committed, House, QueryFault};

/// A house, and what each of the sixteen sessions has staged.
#[derive(Drop)]
pub struct Desk<H: House> {
    pub params: Params,
    pub house: H,
    pub sessions: Sessions,
    ghost same: { H.params house ≡ params },
    ghost fitting: { OnlyFitting params sessions },
}

/// The desk after a commit, and what the line is replied.
#[derive(Drop)]
pub struct Taken<H: House> {
    pub desk: Desk<H>,
    pub reply: Option<Reply>,
}

/// What became of a line.
#[derive(Clone, Copy, PartialEq, Eq, Debug)]
pub enum LineTaken {
    /// The line is done, and is replied this.
    Done { reply: Option<Reply> },
    /// The line commits what this session has staged. That is left to [`Desk::commit`], and all is as before.
    Commits { session: u8 },
}

impl<H: House> Desk<H> {
    ghost use Rattle.csv_rows.specs.Machine.{begun};
    ghost use Rattle.row_machine.specs.Housed.{DoesLine, Takes, input_cost};

    /// The house, and nothing staged.
    pub fn new(alloc: Global, house: H) -> Desk<H>
        ensures params { result.params ≡ H.params house }
        ensures range { IsInRange result.params }
        ensures house { result.house ≡ house }
        ensures sessions { result.sessions ≡ (begun []).staged }
    {
        Desk {
            params: house.params(),
            house,
            sessions: Sessions::new(alloc),
        }
    }

    // Ends the run for this cause, with the house as it is.
    pub(crate) fn ended(self, ending: Ending) -> RunEnd<H::Device>
        ensures ending { result.ending ≡ ending }
        ensures disk { result.device ≡ H.device self.house }
    {
        RunEnd {
            ending,
            device: self.house.into_device(),
        }
    }

    /// Takes the line with this number, where it stands: a house is large, and stays where it is. A line that commits is
    /// left to be committed. An error says how the run ends.
    ///
    /// Where `rows` stands, and what is in `ahead`, change nothing: where the next lines stand there, their rows are read
    /// sooner.
    pub fn take_line(
        &mut self,
        alloc: Global,
        rows: &mut RowReader,
        number: u64,
        line: &[u8],
        ahead: &[u8],
    ) -> Result<LineTaken, Ending>
        requires { IsInRange self.old.params }
        ensures params { self.new.params ≡ self.old.params }
        ensures does { DoesLine ⟦<H as House>⟧ number self.old (input self.old.params line.now) self.new result }
    {
        match rows.read_row(alloc, line, ahead, &self.params) {
            Err(_) => Err(Ending::NoMemory),
            Ok(None) => Ok(LineTaken::Done {
                reply: Some(Reply::Bad { line: number }),
            }),
            Ok(Some(input)) => self.take_input(number, &input),
        }
    }

    // The step on what a line spells.
    fn take_input(&mut self, number: u64, input: &Input) -> Result<LineTaken, Ending>
        requires { InputFits self.old.params input.now }
        ensures params { self.new.params ≡ self.old.params }
        ensures does { DoesLine ⟦<H as House>⟧ number self.old (Some input.now) self.new result }
    {
        match *input {
            Input::Stage { session, row } => self.stage(number, session, &row),
            Input::Commit { session } => Ok(LineTaken::Commits { session }),
            Input::Drop { session } => self.drop_staged(number, session),
            Input::Ask { version, query } => self.ask(number, version, &query),
        }
    }

    // A row is put last in its session, unless the session is full.
    fn stage(&mut self, number: u64, session: u8, row: &Row) -> Result<LineTaken, Ending>
        requires some { 1 ≤ session }
        requires sixteen { session ≤ 16 }
        requires fits { IsTrue (row_fits self.old.params row.now) }
        ensures params { self.new.params ≡ self.old.params }
        ensures does { DoesLine ⟦<H as House>⟧ number self.old (Some (Input.Stage session row.now)) self.new result }
    {
        match self.sessions.stage(session, row) {
            Ok(()) => Ok(LineTaken::Done { reply: None }),
            Err(StageRow::Full) => Ok(LineTaken::Done {
                reply: Some(Reply::Full { line: number }),
            }),
            Err(StageRow::NoMemory) => Err(Ending::NoMemory),
        }
    }

    // What the session has staged is forgotten.
    fn drop_staged(&mut self, number: u64, session: u8) -> Result<LineTaken, Ending>
        requires some { 1 ≤ session }
        requires sixteen { session ≤ 16 }
        ensures params { self.new.params ≡ self.old.params }
        ensures does { DoesLine ⟦<H as House>⟧ number self.old (Some (Input.Drop session)) self.new result }
    {
        self.sessions.clear(session);
        Ok(LineTaken::Done {
            reply: Some(Reply::Dropped { session }),
        })
    }

    /// What the session has staged is committed, and the session is empty.
    pub fn commit(self, session: u8) -> Result<Taken<H>, RunEnd<H::Device>>
        requires some { 1 ≤ session }
        requires sixteen { session ≤ 16 }
        ensures { Takes ⟦<H as House>⟧ self.params (H.device self.house) (λ whole. IsTrue whole)
            (λ h. commit_step (record { history = h; staged = self.sessions }) session (first_refusal self.params h (rows_of (record { history = h; staged = self.sessions }) session)))
            (λ h. rows_of (record { history = h; staged = self.sessions }) session) (λ h. 0) result }
    {
        let Desk {
            params,
            house,
            mut sessions,
        } = self;
        match house.commit(sessions.rows(session)) {
            Committed::Done { house, version } => {
                sessions.clear(session);
                let desk = Desk {
                    params,
                    house,
                    sessions,
                };
                Ok(Taken {
                    desk,
                    reply: Some(Reply::Version { version }),
                })
            }
            Committed::Refused { house, refusal } => {
                sessions.clear(session);
                let desk = Desk {
                    params,
                    house,
                    sessions,
                };
                Ok(Taken {
                    desk,
                    reply: Some(Reply::Refused { refusal }),
                })
            }
            Committed::PageLimit { house, allotted } => Err(RunEnd {
                ending: Ending::PageLimit { allotted },
                device: house.into_device(),
            }),
            Committed::NoMemory { house } => Err(RunEnd {
                ending: Ending::NoMemory,
                device: house.into_device(),
            }),
            Committed::Damaged { house, page } => Err(RunEnd {
                ending: Ending::Damaged { page },
                device: house.into_device(),
            }),
            Committed::Disk { device } => Err(RunEnd {
                ending: Ending::DiskFault,
                device,
            }),
        }
    }

    // The query is answered at its version, or at the last one.
    fn ask(&mut self, number: u64, version: Option<u32>, query: &Query) -> Result<LineTaken, Ending>
        requires { IsTrue (query_fits self.old.params query.now) }
        ensures params { self.new.params ≡ self.old.params }
        ensures does { DoesLine ⟦<H as House>⟧ number self.old (Some (Input.Ask version query.now)) self.new result }
    {
        let version = version.unwrap_or(self.house.last());
        match self.house.query(query, version) {
            Ok(value) => {
                let reply = Reply::Answer {
                    kind: query.kind,
                    version,
                    value,
                };
                Ok(LineTaken::Done { reply: Some(reply) })
            }
            Err(QueryFault::NoVersion(_)) => Ok(LineTaken::Done {
                reply: Some(Reply::NoVersion { line: number }),
            }),
            Err(QueryFault::Disk) => Err(Ending::DiskFault),
            Err(QueryFault::Damaged(page)) => Err(Ending::Damaged { page }),
        }
    }
}
