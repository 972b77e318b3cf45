//! The connectors of an adapter's phys (W-204; 6.18 of CSMI). They are bytes that the caller lends,
//! 36 for each of 32 references.
#![tactic(auto)]

ghost use Rattle.std.specs.Prelude.{◌≡◌, ◌≤◌};
ghost use Rattle.connectors.specs.Pinout.{pinout_holds};
ghost use Rattle.connectors.specs.Connector.{connectors_of, pinouts_hold, connectors_past};

/// How many bytes all 32 connectors have.
pub const SIZE: usize = 1152;

/// How many bytes one of them has.
const CONNECTOR_SIZE: usize = 36;

/// The pinouts of the first p connectors have no bit but those of section 10's constants.
pub fn pinouts_hold(connectors: &[u8; SIZE], p: usize) -> bool
    requires { p ≤ 32 }
    ensures { result ≡ pinouts_hold (connectors_of connectors.now) p }
{
    let (connectors, _) = connectors.as_chunks::<CONNECTOR_SIZE>();
    // a slice of p: `take` would count beside it, for each connector at each request
    connectors[..p].iter().all(pinout_holds)
}

fn pinout_holds(connector: &[u8; CONNECTOR_SIZE]) -> bool
    ensures { result ≡ pinout_holds connector.now }
{
    connector[0] < 4 && connector[1] < 16 && connector[2] < 16 && connector[3] == 0
}

/// The connectors from p on are zero: one test of their bytes.
#[tactic(auto, using(crate::proofs::Laws::connectors_past_lem))]
pub fn zero_from(connectors: &[u8; SIZE], p: usize) -> bool
    requires { p ≤ 32 }
    ensures { result ≡ connectors_past (connectors_of connectors.now) p }
{
    wire::zero_at(connectors, CONNECTOR_SIZE * p, CONNECTOR_SIZE * (32 - p))
}
