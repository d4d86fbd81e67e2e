//! What the lives of a history become when a batch is put last.
ghost use Rattle.history_laws.specs.Growing.{LivesGrow, NumbersGrow};

/// An add begins a life, and a withdrawal ends those of its id that are not ended; the changes of a batch that
/// is put last have the next version and the next event numbers.
pub fn lives_grow_by_changes()
    ensures grow { LivesGrow }
    ensures numbers { NumbersGrow }
{}
