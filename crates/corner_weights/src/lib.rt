//! What an object gives at its corners, and how queries are answered from it.
//!
//! Two boxes meet in a dimension where the one's low end is at most the other's high end, less where its
//! high end is below the other's low end. The product of these differences over the dimensions has one term
//! for each subset of the dimensions: a corner of the object, dominated by a corner of the query or not, with
//! the sign of the subset's size. So the weight that meets a query is a signed sum of dominance sums. Integrals
//! are such sums too: each corner of an object carries the coefficients of a polynomial, plane by plane.
//!
//! A subset is a number whose bit i tells of dimension i. `mass` bounds the integrals of an object; by it a
//! warehouse keeps all its sums below `2^126`. Each call answers exactly what the definitions of `bw_types`
//! say. No call takes memory, and none refuses.
#![tactic(auto)]

mod corners;
mod exponents;
pub mod integrals;
pub mod meeting;
mod planes;
mod powers;
mod reaches;
mod subset;
mod sums;

pub use corners::{integral_corner, meet_corner, object_corner};
pub use exponents::exponent;
pub use planes::{eval, plane_count, plane_weight, plane_weight_by};
pub use powers::{BoxPowers, box_powers};
pub use subset::{is_in_subset, sign};
pub use sums::mass;
