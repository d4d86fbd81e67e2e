//! A warehouse on a disk.
//!
//! Its pages are those of a space: an object table, which keeps every life that was ever added, and the trees
//! of a forest, which alone answer queries. What a disk holds is said by `Holds`, a history under the params
//! of its superblock; queries need less, `HoldsTrees`. A disk that `create` made holds the empty history, and
//! opening a disk, at whatever moment the program was stopped, gives the history that it holds.
//!
//! That history is read back as a list of its adds and withdrawals (`gather`, [`Event`]). What one change more does to the lives in the
//! table and to the entries in the trees is said by laws: functions that do nothing, and whose contracts are the laws.
#![tactic(auto)]

mod batches;
mod committing;
mod creating;
mod drafting;
mod entering;
mod event;
mod gathering;
mod house;
mod ids;
mod in_table;
mod in_trees;
mod laws;
mod lives;
mod masses;
mod next_change;
mod numbering;
mod opening;
mod querying;
mod roots;
mod seen;
mod state;
mod upgrading;
mod waiting;
mod walking;

pub use batches::{count_of, first_row};
pub use creating::{Created, create};
pub use event::Event;
pub use gathering::{GatherFault, gather};
pub use laws::{created_holds, holding_laws, table_tells, tables_keep_lives};
pub use lives::gather_lives;
pub use numbering::make_history;
pub use state::Warehouse;
