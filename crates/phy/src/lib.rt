//! One phy of the adapter (document 01, "Adapter file", as far as one phy goes): what its block
//! holds, its fields by name, and the changes that a request makes to it.
#![tactic(auto)]

mod block;
mod change;

ghost use Rattle.std.specs.Prelude.{◌≡◌};
ghost use Rattle.phy.specs.Entity.{port_of, negotiated_of, programmed_minimum, programmed_maximum, no_device, is_sata, attached_is};

/// The number of a phy.
#[derive(Clone, Copy, Debug, PartialEq, Eq, PartialOrd, Ord, Hash)]
pub struct PhyIdentifier(pub u8);

/// The number of a port. It never stands for a phy's.
#[derive(Clone, Copy, Debug, PartialEq, Eq, PartialOrd, Ord, Hash)]
pub struct PortIdentifier(pub u8);

/// A phy. Its last five fields are bytes of a file: no `bool` and no rate, since any value may
/// stand there until the field rules hold.
#[derive(Clone, Copy, Debug, PartialEq, Eq)]
pub struct Phy {
    /// Its PHY_ENTITY (6.7.4.2).
    pub entity: [u8; 64],
    /// Its four counters in the order of 6.9; the last one counts phy reset problems.
    pub counters: [u32; 4],
    /// Its signature FIS, or zeros.
    pub signature: [u8; 20],
    /// 1 if it holds a signature.
    pub held: u8,
    /// 1 if it is fixed.
    pub fixed: u8,
    /// The lowest rate of the attached device, or 0.
    pub lowest: u8,
    /// The highest rate of the attached device, or 0.
    pub highest: u8,
    /// 1 if the attached device is held at spin-up (W-205).
    pub spinup_hold: u8,
}

/// How many bytes a phy has, in its block of the adapter file and in the state.
pub const SIZE: usize = 105;

// The places of a PHY_ENTITY: Identify's phy identifier and signal class, the port identifier, the
// negotiated, the minimum and the maximum rate; of Attached the device type, the target protocols
// and the SAS address.
pub const IDENTIFIER: usize = 20;

pub const CLASS: usize = 21;

pub const PORT: usize = 28;

pub const NEGOTIATED: usize = 29;

pub const MINIMUM: usize = 30;

pub const MAXIMUM: usize = 31;

pub const ATTACHED: usize = 36;

pub const PROTOCOLS: usize = 39;

pub const ADDRESS: usize = 48;

impl Phy {
    #[tactic(auto, unfolding(crate::specs::Entity::port_of))]
    pub fn port(self) -> PortIdentifier
        ensures { result ≡ port_of self }
    {
        PortIdentifier(self.entity[PORT])
    }

    #[tactic(auto, unfolding(crate::specs::Entity::negotiated_of))]
    pub fn negotiated(self) -> u8
        ensures { result ≡ negotiated_of self }
    {
        self.entity[NEGOTIATED]
    }

    #[tactic(auto, unfolding(crate::specs::Entity::programmed_minimum))]
    pub fn programmed_minimum(self) -> u8
        ensures { result ≡ programmed_minimum self }
    {
        self.entity[MINIMUM] / 16
    }

    #[tactic(auto, unfolding(crate::specs::Entity::programmed_maximum))]
    pub fn programmed_maximum(self) -> u8
        ensures { result ≡ programmed_maximum self }
    {
        self.entity[MAXIMUM] / 16
    }

    // No device is attached.
    #[tactic(auto, unfolding(crate::specs::Entity::no_device, crate::specs::Entity::attached_type))]
    pub fn no_device(self) -> bool
        ensures { result ≡ no_device self }
    {
        self.entity[ATTACHED] == codes::NO_DEVICE_ATTACHED
    }

    // A SATA device is attached.
    #[tactic(auto, unfolding(crate::specs::Entity::is_sata, crate::specs::Entity::attached_type))]
    pub fn is_sata(self) -> bool
        ensures { result ≡ is_sata self }
    {
        self.entity[ATTACHED] == codes::END_DEVICE && self.entity[PROTOCOLS] % 2 == 1
    }

    // The attached SAS address is the given one.
    #[tactic(auto, unfolding(crate::specs::Entity::attached_is, crate::specs::Entity::attached_address, laws::specs::Splice::part))]
    pub fn attached_is(self, address: &[u8]) -> bool
        ensures { result ≡ attached_is self address.now }
    {
        wire::same(&self.entity[ADDRESS..ADDRESS + 8], address)
    }
}
