//! Code 22, get link errors (document 01, "Request"). It works on the body of its request, the
//! buffer after its header, and on the tables, in which it stores the phy that it changes.
#![tactic(auto)]

ghost use Rattle.std.specs.Prelude.{◌≡◌, ◌<◌, ◌≤◌, length};
ghost use Rattle.codes.specs.Codes.{success};
ghost use Rattle.codes.specs.Numbers.{code_of};
ghost use Rattle.adapter.specs.Adapter.{FewPhys};
ghost use Rattle.adapter.specs.Changed.{gives, leaves};
ghost use Rattle.tables.specs.Tables.{tables_of};
ghost use Rattle.link_errors.specs.LinkErrors.{counters_shown, after_reset, link_errors};

use codes::ReturnCode;
use phy::{Phy, PhyIdentifier};

#[tactic(auto, unfolding(crate::specs::LinkErrors::counters_shown))]
fn put_counters(counters: [u32; 4], body: &mut [u8])
    requires { 20 ≤ length body.old }
    ensures { body.new ≡ counters_shown body.old counters }
{
    wire::write32(body, 4, counters[0]);
    wire::write32(body, 8, counters[1]);
    wire::write32(body, 12, counters[2]);
    wire::write32(body, 16, counters[3]);
}

#[tactic(auto, using(laws::specs::Choice::picks), unfolding(crate::specs::LinkErrors::after_reset))]
fn show_and_reset(
    tables: &mut [u8; tables::SIZE],
    n: PhyIdentifier,
    phy: Phy,
    reset: u8,
    body: &mut [u8],
)
    requires n_bound { n.0 < 32 }
    requires in_bounds { 20 ≤ length body.old }
    ensures tables { gives success (tables_of tables.new) ≡ after_reset (tables_of tables.old) n phy reset }
    ensures body { body.new ≡ counters_shown body.old phy.counters }
{
    put_counters(phy.counters, body);
    if reset == codes::LINK_ERROR_RESET_COUNTS {
        tables::store_phy(tables, n, phy.cleared());
    }
}

/// Reports a phy's four counters, and clears them where the reset byte is 1. A refusal leaves
/// tables and body as they were.
#[tactic(auto, using(laws::specs::Choice::picks, crate::proofs::Laws::report_by), unfolding(crate::specs::LinkErrors::link_errors))]
pub fn get_link_errors(tables: &mut [u8; tables::SIZE], body: &mut [u8]) -> Result<(), ReturnCode>
    requires few_phys { FewPhys (tables_of tables.old) }
    requires in_bounds { 20 ≤ length body.old }
    ensures { leaves (code_of result) (tables_of tables.new) body.new ≡ link_errors (tables_of tables.old) body.old }
{
    let n = PhyIdentifier(body[0]);
    let reset = body[codes::RESET_PLACE];
    if reset > 1 {
        return Err(ReturnCode::InvalidParameter);
    }
    let phy = tables::phy(tables, n).ok_or(ReturnCode::PhyDoesNotExist)?;
    show_and_reset(tables, n, phy, reset, body);
    Ok(())
}
