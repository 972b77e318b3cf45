//! The changes that a request makes to a phy. Each gives the phy back; what it does not name is
//! carried.
ghost use Rattle.std.specs.Prelude.{◌≡◌, ◌<◌};
ghost use Rattle.phy.specs.Change.{stored, released, cleared, raised, negotiated_as, programmed_as, configured};

use crate::{CLASS, MAXIMUM, MINIMUM, NEGOTIATED, Phy};

// The fourth counter of 6.9.
const RESET_PROBLEM: usize = 3;

impl Phy {
    // One byte of the entity replaced.
    #[tactic(auto, unfolding(crate::specs::Change::stored))]
    fn store(mut self, place: usize, value: u8) -> Phy
        requires { place < 64 }
        ensures { result ≡ stored self place value }
    {
        self.entity[place] = value;
        self
    }

    /// No longer held at spin-up.
    #[tactic(auto, unfolding(crate::specs::Change::released))]
    pub fn released(self) -> Phy
        ensures { result ≡ released self }
    {
        Phy {
            spinup_hold: 0,
            ..self
        }
    }

    /// All four counters at 0.
    #[tactic(auto, unfolding(crate::specs::Change::cleared))]
    pub fn cleared(self) -> Phy
        ensures { result ≡ cleared self }
    {
        Phy {
            counters: [0; 4],
            ..self
        }
    }

    /// One more phy reset problem; the counter holds at 4,294,967,295.
    #[tactic(auto, unfolding(crate::specs::Change::raised, crate::specs::Change::one_more))]
    pub fn raised(mut self) -> Phy
        ensures { result ≡ raised self }
    {
        self.counters[RESET_PROBLEM] = self.counters[RESET_PROBLEM].saturating_add(1);
        self
    }

    /// Another negotiated rate.
    #[tactic(auto, unfolding(crate::specs::Change::negotiated_as))]
    pub fn with_negotiated(self, rate: u8) -> Phy
        ensures { result ≡ negotiated_as self rate }
    {
        self.store(NEGOTIATED, rate)
    }

    // Another programmed rate in the rate byte at a place; the hardware's half is kept.
    #[tactic(auto, unfolding(crate::specs::Change::programmed_as))]
    fn program(self, place: usize, rate: u8) -> Phy
        requires { (place < 64) × (rate < 16) }
        ensures { result ≡ programmed_as self place rate }
    {
        self.store(place, 16 * rate + self.entity[place] % 16)
    }

    /// Another signal class, programmed minimum and programmed maximum.
    #[tactic(auto, unfolding(crate::specs::Change::configured))]
    pub fn configured(self, class: u8, minimum: u8, maximum: u8) -> Phy
        requires { (minimum < 16) × (maximum < 16) }
        ensures { result ≡ configured self class minimum maximum }
    {
        self.store(CLASS, class)
            .program(MINIMUM, minimum)
            .program(MAXIMUM, maximum)
    }
}
