// The list of the states, in the order of their discovery.
ghost use Rattle.std.specs.Prelude.{◌≡◌, ℕ, ◌≤◌, ◌<◌, ◌==◌, List, [], ◌∷◌, length, take, get_or, position};
ghost use Rattle.automaton.specs.Limits.{state_limit};
ghost use Rattle.automaton.specs.inner.Sizes.{slot_count};
ghost use Rattle.automaton.specs.inner.States.{Found, Inserted};

use crate::limits::{SLOT_COUNT, STATE_LIMIT};
use std::marker::Model;

// The first `count` words of the list, an array and no `Vec`, since the library has no heap. Nothing is promised of the slots, which have guesses where states
// stand: a guess is compared before it counts.
#[derive(Drop)]
pub(crate) struct States {
    list: [u64; STATE_LIMIT],
    count: usize,
    slots: [u8; SLOT_COUNT],
}

// Clauses see the states.
impl Model for States {
    ghost Value = { List ℕ };

    ghost view = { λ s. take s.count s.list };

    ghost invariant = { λ s. s.count ≤ state_limit };
}

// Which slot has the guess where a state stands.
fn state_slot(state: u64) -> usize
    ensures { result < slot_count }
{
    (state % SLOT_COUNT as u64) as usize
}

impl States {
    // The list of one state.
    pub(crate) fn new(first: u64) -> Self
        ensures { result ≡ first ∷ [] }
    {
        let mut list = [0u64; STATE_LIMIT];
        list[0] = first;
        States {
            list,
            count: 1,
            slots: [0; SLOT_COUNT],
        }
    }

    // The number of states.
    pub(crate) fn count(&self) -> usize
        ensures count { result ≡ length self.now }
        ensures few { result ≤ state_limit }
    {
        self.count
    }

    // State s.
    pub(crate) fn get(&self, s: usize) -> u64
        requires { s < length self.now }
        ensures word { result ≡ get_or self.now s 0 }
        ensures few { length self.now ≤ state_limit }
    {
        let list = &self.list;
        list[s]
    }

    // The first place of x.
    fn search(&self, x: u64) -> Option<usize>
        ensures { result ≡ position (λ y. y == x) self.now }
    {
        let list = &self.list[..];
        list[..self.count].iter().position(|y| *y == x)
    }

    // Where x stands: at the slot's guess, or wherever a search from the front meets it.
    fn find_from(&self, x: u64, slot: usize) -> Option<usize>
        requires { slot < slot_count }
        ensures { Found self.now x result }
    {
        let guess = usize::from(self.slots[slot]);
        if guess < self.count && self.list[guess] == x {
            return Some(guess);
        }
        self.search(x)
    }

    // Where x stands.
    pub(crate) fn find(&self, x: u64) -> Option<usize>
        ensures { Found self.now x result }
    {
        self.find_from(x, state_slot(x))
    }

    // Puts x at the end of the list where it does not stand on it, or returns None where there is no room for it.
    pub(crate) fn insert(&mut self, x: u64) -> Option<()>
        ensures inserted { Inserted self.old x result self.new }
        ensures few { length self.new ≤ state_limit }
    {
        let slot = state_slot(x);
        if let Some(p) = self.find_from(x, slot) {
            self.slots[slot] = p as u8;
            return Some(());
        }
        let n = self.count;
        if n == STATE_LIMIT {
            return None;
        }
        self.list[n] = x;
        self.slots[slot] = n as u8;
        self.count = n + 1;
        Some(())
    }
}
