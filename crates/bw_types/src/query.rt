/// What a query asks for.
#[derive(Clone, Copy, PartialEq, Eq, Debug)]
pub enum Kind {
    /// The total weight of the objects that meet the box.
    Sum,
    /// The number of the objects that meet the box.
    Count,
    /// `6^dims` times the integral of the value functions over the box; only where there is a degree.
    Integral,
}

/// A query box, in stored numbers (coordinate plus origin), both ends inclusive.
///
/// Only the ends of the warehouse's own dimensions count.
#[derive(Clone, Copy, PartialEq, Eq, Debug)]
pub struct Query {
    pub kind: Kind,
    pub low: [u32; 3],
    pub high: [u32; 3],
}
