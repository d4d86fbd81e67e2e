//! The laws of digits, of depths and of numbers of pages: a function here does nothing, and its contract is the law.
ghost use Rattle.bw_types.specs.Digits.{DigitsAreFew, DigitsGrow, DigitsReach, DigitsUnfold, PowersHaveDigits};
ghost use Rattle.bw_types.specs.Depths.{AddingGrows, BuildingGrows, DepthsGrow, DepthsWorked, GrowthWorked, QueriesAreCosts, QueriesWorked};

/// A number of k digits in base b is from `b^(k-1)` on and below `b^k`, a greater number has no fewer, and how many they are
/// follows from the number's quotient by the base.
pub fn digits_are_counted()
    ensures many { PowersHaveDigits }
    ensures few { DigitsAreFew }
    ensures reach { DigitsReach }
    ensures grow { DigitsGrow }
    ensures unfold { DigitsUnfold }
{}

/// Depths, pages of queries and page growth, computed from the definitions.
pub fn depths_are_worked()
    ensures depths { DepthsWorked }
    ensures queries { QueriesWorked }
    ensures growth { GrowthWorked }
{}

/// None of these numbers falls as the number of points rises.
pub fn depths_grow()
    ensures depths { DepthsGrow }
    ensures queries { QueriesAreCosts }
    ensures building { BuildingGrows }
    ensures adding { AddingGrows }
{}
