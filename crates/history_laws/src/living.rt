//! What the lives of a history tell.
ghost use Rattle.history_laws.specs.Living.{LastLivesTell, LivesAreInOrder, LivesTellAdded, LivesTellIds, LivesTellLive};

/// The live objects at a version are those of the lives that were begun by it and not ended by it; no life ends
/// before it begins.
pub fn lives_tell_live_objects()
    ensures live { LivesTellLive }
    ensures in_order { LivesAreInOrder }
{}

/// An id is live at the end where a life of it is not ended, it was added where it has a life, and its last
/// life alone tells whether it is live.
pub fn last_lives_tell()
    ensures live { LivesTellIds }
    ensures added { LivesTellAdded }
    ensures last { LastLivesTell }
{}
