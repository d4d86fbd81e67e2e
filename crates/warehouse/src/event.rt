/// A change as the history keeps it: it names the object that it adds by a life, which has the object.
#[derive(Clone, Copy, Debug)]
pub enum Event {
    /// The object of the life at this place in the list of lives, from 0, was added.
    Add(usize),
    /// The live object with this id was withdrawn.
    Withdraw(u64),
}
