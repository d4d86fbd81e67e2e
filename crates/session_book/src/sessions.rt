ghost use Rattle.std.specs.Prelude.{◌≡◌, ◌<◌, ◌≤◌, ◌↔◌, Err, [], ◌∷◌, ◌++◌, length, replicate, OnOk, OnErr};
ghost use Rattle.session_book.specs.Staged.{IsSession, rows_of, with_rows};

use bw_types::Row;
use std::alloc::Global;
use std::marker::Model;
use thiserror::Error;

/// Why a row was not staged.
#[derive(Clone, Copy, PartialEq, Eq, Debug, Error)]
pub enum StageRow {
    /// The session has as many rows as one may have, 4096.
    #[error("the session is full")]
    Full,
    /// There was no memory.
    #[error("no memory")]
    NoMemory,
}

/// What sessions 1 to 16 have staged: sixteen lists of rows.
#[derive(Drop)]
pub struct Sessions {
    lists: [Vec<Row>; 16],
}

impl Model for Sessions {
    ghost use Rattle.std.specs.Prelude.{◌≤◌, List, map, length};
    ghost use Rattle.std.specs.List.{All};
    ghost use Rattle.bw_types.specs.declared.row.Row.{Row};

    ghost Value = { List (List Row) };

    ghost view = { λ s. map (λ list. list.items) s.lists };

    ghost invariant = { λ s. All (λ list. length list.items ≤ 4096) s.lists };
}

impl Sessions {
    /// The most rows that one session may have.
    pub const MOST_ROWS: usize = 4096;

    /// Sixteen empty lists. It takes no memory.
    pub fn new(alloc: Global) -> Sessions
        ensures { result ≡ replicate 16 [] }
    {
        Sessions {
            lists: std::array::from_fn(|_| Vec::new(alloc)),
        }
    }

    /// Puts the row last in the session's list.
    ///
    /// `Full` comes exactly where the session has 4096 rows. After a refusal all is as before.
    pub fn stage(&mut self, session: u8, row: &Row) -> Result<(), StageRow>
        requires { IsSession session }
        ensures ok { OnOk result (self.new ≡ with_rows self.old session (rows_of self.old session ++ row.now ∷ [])) }
        ensures room { OnOk result (length (rows_of self.old session) < 4096) }
        ensures full { (result ≡ Err StageRow.Full) ↔ (length (rows_of self.old session) ≡ 4096) }
        ensures err { OnErr result (self.new ≡ self.old) }
    {
        let list = &mut self.lists[usize::from(session - 1)];
        if list.len() >= Self::MOST_ROWS {
            return Err(StageRow::Full);
        }
        match list.push(*row) {
            Ok(()) => Ok(()),
            Err(_) => Err(StageRow::NoMemory),
        }
    }

    /// What the session has staged.
    pub fn rows(&self, session: u8) -> &[Row]
        requires { IsSession session }
        ensures rows { result.now ≡ rows_of self.now session }
        ensures at_most { length result.now ≤ 4096 }
    {
        self.lists[usize::from(session - 1)].as_slice()
    }

    /// Empties the session's list.
    pub fn clear(&mut self, session: u8)
        requires { IsSession session }
        ensures { self.new ≡ with_rows self.old session [] }
    {
        self.lists[usize::from(session - 1)].clear();
    }
}
