//! The lives of lawful histories.
ghost use Rattle.history_laws.specs.Alone.{LivesCountChanges, OneOpenLife};

/// In a lawful history an id has one life at most that is not ended, each add begins a life, and each withdrawal
/// ends one.
pub fn lives_are_alone()
    ensures one { OneOpenLife }
    ensures count { LivesCountChanges }
{}
