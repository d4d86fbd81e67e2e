//! Indexes of weighted points over one to three dimensions and versions.
//!
//! A `DomIndex` keeps points in the pages of a tree. It answers the dominance sum: the weight, modulo
//! `2^128`, of the points whose keys and version are at or below those given. Its contract says what a
//! tree stands for, which pages are its own, how many gets a sum makes and how many page numbers an
//! addition gives out. The crates above are generic over it and know of no tree's pages.
//!
//! `PointList` is the plain form: a chain of pages of points, each of which a sum looks at.
#![tactic(auto)]

mod adding;
mod chain;
mod index;
mod point_list;
mod points;
mod putting;

pub use adding::add_all;
pub use index::DomIndex;
pub use point_list::PointList;
pub use points::sum_on;
