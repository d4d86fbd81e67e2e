//! The spellings of pages: for each type of page the one page of 4096 bytes that spells a value.
//!
//! Each type has a call `write`, after which the page is the value's spelling, and a call `read`,
//! which answers the value that a page spells, or `None` exactly where it spells none. The spelling
//! is a definition of specs/, beside the rules that a value keeps. No two values have one spelling.
//! All numbers are spelled with their highest byte first, and bytes that no field names are 0.
//!
//! Values are read from any `Pages` and put into any `Stage` ([`read_page`], [`view_page`], [`put_page`], [`make_page`]). A page that is
//! missing, or that spells no value of the type that a caller asks for, is damaged.
#![tactic(auto)]

mod children;
mod counted;
mod cut_page;
mod cut_view;
mod dated;
mod entry;
mod exact;
mod footprint;
mod free_page;
mod front;
mod journal_head;
mod life_node;
mod life_view;
mod meta;
mod mv_node;
mod mv_view;
mod number;
mod place;
mod point_leaf;
mod point_view;
mod putting;
mod reading;
mod sb_node;
mod sb_view;
mod signed;
mod spelled;
mod summed;
mod super_page;
mod table_node;
mod table_view;
mod three;
mod tree_value;
mod view;
mod zero_bytes;

pub use cut_page::{CutNode, CutPage, cuts_stand_in_order};
pub use cut_view::CutStep;
pub use footprint::footprint_laws;
pub use free_page::FreePage;
pub use journal_head::JournalHead;
pub use life_node::{LifeEntry, LifeNode};
pub use meta::Meta;
pub use mv_node::{MvEntry, MvNode};
pub use place::PlaceFor;
pub use point_leaf::PointLeaf;
pub use putting::{make_page, put_page};
pub use reading::{read_in_place, read_level, read_page, view_in_place, view_page};
pub use sb_node::{SbEntry, SbNode};
pub use spelled::{Spelled, TreePage};
pub use summed::{Summed, raise_at, split_off};
pub use super_page::Super;
pub use table_node::{TableEntry, TableNode};
pub use view::View;
