use bw_types::Object;

/// One life of an id: the object, the version that added it, and the version that withdrew it, or 0
/// where none did so far.
#[derive(Clone, Copy, Debug)]
pub struct Life {
    pub object: Object,
    pub added: u32,
    pub ended: u32,
}

/// What an id is.
#[derive(Clone, Copy, Debug)]
pub enum State {
    /// It was never added.
    Never,
    /// It is live: the place of its life in the list of lives, from 0.
    Live(usize),
    /// It was added, and every life of it is ended.
    Withdrawn,
}
