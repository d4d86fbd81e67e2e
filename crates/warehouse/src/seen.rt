//! What the warehouse's states of ids tell to the book of rules that a batch has to keep.
ghost use Rattle.std.specs.Prelude.{◌≡◌, refl};
ghost use Rattle.warehouse.specs.Told.{life_of_state};
ghost use Rattle.warehouse.specs.Kept.{state_in};

use crate::life::State;
use ports::PageFault;
use session_book::{Life, Seen};
use std::collections::BTreeMap;

/// The states of ids, as a batch is judged by them. No call fails.
#[derive(Drop)]
pub struct SeenStates<'a> {
    pub states: &'a BTreeMap<u64, State>,
}

impl<'a> Seen for SeenStates<'a> {
    ghost tells = { λ _. Unit {0} };

    ghost life_of = { λ seen id. life_of_state (state_in seen.states.now id) };

    ghost faults = { λ _. 0 };

    ghost may_blame = { λ _ _. ⊥ };

    ghost stays = { λ before after. after.states.now ≡ before.states.now };

    fn life(&mut self, id: u64) -> Result<Life, PageFault> {
        Ok(match self.states.get(&id) {
            None | Some(State::Never) => Life::Never,
            Some(State::Live(_)) => Life::Live,
            Some(State::Withdrawn) => Life::Withdrawn,
        })
    }

    ghost stays_alone = { λ s. refl };

    ghost stays_on = { λ s t u first second. Prim.cc };
}
