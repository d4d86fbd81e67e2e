//! What is so of a history that is kept from a version on.
ghost use Rattle.compact_store.specs.Kept.{KeptAnswersAlike, KeptHasNoMore, KeptIsLawful};

/// Proves that a lawful history that is kept from one of its versions on is lawful and has as many versions, that from that version
/// on it answers each query alike, and that each of its changes is one of the history; it does nothing when it runs.
pub fn kept_laws()
    ensures lawful { KeptIsLawful }
    ensures alike { KeptAnswersAlike }
    ensures no_more { KeptHasNoMore }
{}
