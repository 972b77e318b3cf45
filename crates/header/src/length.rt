// A structure and its data, within a length.
ghost use Rattle.std.specs.Prelude.{◌≡◌};
ghost use Rattle.header.specs.Srb.{length_holds};

use control_codes::{data_size, structure_size};

// They are within n bytes, and these within the body.
#[tactic(auto, using(crate::proofs::LengthLaws::short_structure, crate::proofs::LengthLaws::short_body, crate::proofs::LengthLaws::inside_body))]
pub fn length_holds(control: u32, n: u32, body: &[u8]) -> bool
    ensures { result ≡ length_holds control n body.now }
{
    let size = structure_size(control);
    if n < size {
        return false;
    }
    if body.len() < n as usize {
        return false;
    }
    u64::from(size) + u64::from(data_size(control, body)) <= u64::from(n)
}
