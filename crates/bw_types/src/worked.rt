//! Whole examples, computed from the definitions: a function here does nothing, and its contract is
//! what the definitions of specs/ give on literal objects, histories and queries.
ghost use Rattle.bw_types.specs.Worked.{TouchingBoxesMeet, PastVersionsStay, EachDimensionCounts, IntegralsAreScaled, SignedCoordinates, MassesOfBoxes, MassIsLimited, IdsAreJudged, SessionsCollide, EventsAreLimited, AnIdLivesAgain, WithinOneBatch, LivesAreNumbered, LawfulHistoriesAre, WhatFits};

/// Boxes that touch meet.
pub fn touching_boxes_meet()
    ensures { TouchingBoxesMeet }
{}

/// A withdrawal leaves the versions before it as they were.
pub fn past_versions_stay()
    ensures { PastVersionsStay }
{}

/// A box meets a query box where it does so in each dimension.
pub fn each_dimension_counts()
    ensures { EachDimensionCounts }
{}

/// Integrals of value functions of degrees 0, 1 and 2 in one, two and three dimensions.
pub fn integrals_are_scaled()
    ensures { IntegralsAreScaled }
{}

/// A signed warehouse adds up and integrates over coordinates below 0.
pub fn signed_coordinates()
    ensures { SignedCoordinates }
{}

/// The masses of single objects.
pub fn masses_of_boxes()
    ensures { MassesOfBoxes }
{}

/// The masses of all objects ever added stay below `2^126`.
pub fn mass_is_limited()
    ensures { MassIsLimited }
{}

/// When an id is used, fresh, unknown and gone.
pub fn ids_are_judged()
    ensures { IdsAreJudged }
{}

/// Of two sessions that stage one id the second to commit is refused.
pub fn sessions_collide()
    ensures { SessionsCollide }
{}

/// Adds, withdrawals and batches are events, and their number is limited.
pub fn events_are_limited()
    ensures { EventsAreLimited }
{}

/// An id is added, moved, withdrawn and added again.
pub fn an_id_lives_again()
    ensures { AnIdLivesAgain }
{}

/// What one batch may do with one id.
pub fn within_one_batch()
    ensures { WithinOneBatch }
{}

/// The lives of an id, with the versions and event numbers of their ends.
pub fn lives_are_numbered()
    ensures { LivesAreNumbered }
{}

/// There are lawful histories.
pub fn lawful_histories_are()
    ensures { LawfulHistoriesAre }
{}

/// Which objects and queries fit.
pub fn what_fits()
    ensures { WhatFits }
{}
