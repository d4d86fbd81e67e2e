//! What the crates above owe to the machine and have of it: bytes that come and go, and pages.
//!
//! **Bytes.** [`Source`] gives bytes piece by piece, [`Sink`] takes them, so that the code above runs over files, over streams and over
//! memory alike. Their contracts speak of the bytes that a source has left and that a sink has written, each where it tells them.
//! [`MemSource`] and [`MemSink`] are the forms in memory, with faults at chosen calls. [`StdSource`] and [`StdSink`] stand on the standard
//! library's readers and writers, and tell what those tell.
//!
//! **Pages.** The crates above read and change trees of pages of 4096 bytes through [`Pages`] and [`Stage`] alone, and know nothing of
//! disks, files or caches. What is promised is one map from page numbers to bytes: a get reads it, and a stage changes it by one page
//! a call. `Replaces` says in one record what a longer change leaves alone, and such changes compose. [`MemStage`] is the stage in
//! memory, and [`FailingStage`] is one of which a call fails, for tests.
//!
//! **Counts.** That a device failed is said everywhere as: its count of faults rose in this call, or stands at its last value. A count has
//! 64 bits, rises by one and stands still at its last value ([`raised`]).
#![tactic(auto)]

mod count;
mod failing;
mod frame;
mod mem_stage;
mod memory_sink;
mod memory_source;
mod page;
mod pages;
mod stage;
mod standard_sink;
mod standard_source;
mod streams;

pub use count::raised;
pub use failing::FailingStage;
pub use frame::changes_compose;
pub use mem_stage::MemStage;
pub use memory_sink::MemSink;
pub use memory_source::MemSource;
pub use page::{FREE_PAGE, Page, PageFault, StageFault, blank_page};
pub use pages::Pages;
pub use stage::Stage;
pub use standard_sink::StdSink;
pub use standard_source::StdSource;
pub use streams::{Failed, Sink, Source};
