//! Integrals by planes: a function here does nothing, and its contract is the law.
ghost use Rattle.corner_weights.specs.Integrals.{IntegralByCorners, ObjectIntegralByPlanes};
ghost use Rattle.corner_weights.specs.PlaneSums.{BelowByPlanes, IntegralByPlanes};

/// The signed values, at the corners of a query, of the polynomials that an object's corners at or below them make
/// together come to the integral of the object's value function over its common part with the query's box.
pub fn object_integral_by_planes()
    ensures { ObjectIntegralByPlanes }
{}

/// The same of a list of objects, by the dominance sums of their points: the signed values, at the corners of a query,
/// of the polynomials whose coefficients are the planes' sums there come to the total integral at a version, modulo
/// `2^128`.
pub fn integral_by_planes()
    ensures { IntegralByPlanes }
{}

/// At one corner of a query that value is the total integral below the corner, modulo `2^128`.
pub fn below_by_planes()
    ensures { BelowByPlanes }
{}

/// The integral over a box is that of the signed integrals below its corners: boxes that share a corner share a summand.
pub fn integral_by_corners()
    ensures { IntegralByCorners }
{}
