use crate::Object;

/// One life of an id: an object that was added, and when it was withdrawn.
///
/// `life` counts from 1 and is the number of this add among those of its id. `added` is the version
/// of the add and `add_event` its event number, counted from 0 over the whole history. `withdrawn`
/// and `withdraw_event` are those of the withdrawal, and both 0 where there was none.
#[derive(Clone, Copy, Debug, Default, PartialEq, Eq)]
pub struct Dated {
    pub object: Object,
    pub life: u32,
    pub added: u32,
    pub add_event: u32,
    pub withdrawn: u32,
    pub withdraw_event: u32,
}
