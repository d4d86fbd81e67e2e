//! The object table: every life of every object, in pages.
//!
//! A table stands for a list of objects with their dates, one for each life of an id, ascending by id
//! and then life. It is a B+-tree, read down one path, so looking an id up costs as many pages as the
//! table has levels.
//!
//! There are two forms: by lives, and an earlier one by ids, in which each id has its first life alone. A table of the earlier form
//! is written anew by lives ([`renew`]). The calls work over any `Pages` and `Stage`, on any content: what they find broken they name.
#![tactic(auto)]

mod copying;
mod entering;
mod finding;
mod form;
mod freeing;
mod key;
mod laws;
mod marking;
mod node;
mod path;
mod place;
mod placed;
mod renewing;
mod storing;
mod taking;
mod view;
mod walking;

pub use entering::enter;
pub use finding::{find, find_old};
pub use form::Form;
pub use freeing::free_old;
pub use laws::{last_life_laws, table_laws};
pub use marking::mark_withdrawn;
pub use renewing::renew;
pub use walking::{walk, walk_leaf, walk_old};
