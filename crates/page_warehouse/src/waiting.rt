//! Entries that wait for the trees while a batch is entered in the table.
ghost use Rattle.std.specs.Prelude.{◌≡◌, [], ◌∷◌, ◌++◌, Err, OnErr, OnOk};

// What waits is what the trees are to enter: an object, put in or taken out, by the change of this event number.
pub(crate) use corner_forest::Entry as Waiting;
use ports::StageFault;

/// Puts an entry last.
pub(crate) fn wait(waiting: &mut Vec<Waiting>, next: Waiting) -> Result<(), StageFault>
    ensures last { OnOk result (waiting.new.items ≡ waiting.old.items ++ (next ∷ [])) }
    ensures memory { OnErr result (result ≡ Err StageFault.NoMemory) }
{
    match waiting.push(next) {
        Ok(()) => Ok(()),
        Err(_) => Err(StageFault::NoMemory),
    }
}
