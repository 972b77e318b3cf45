//! "Bytes not named, and bytes past the last row, are 0" (document 01, "Adapter file"): a test for each kind of block.
#![tactic(auto)]

ghost use Rattle.std.specs.Prelude.{◌≡◌, ◌<◌, Bool, ℕ};
ghost use Rattle.laws.specs.All.{all_to};
ghost use Rattle.layout.specs.Layout.{row_blocks};
ghost use Rattle.unnamed.specs.Unnamed.{head_zero, phy_block_zero, row_block_zero, controller_block_zero, connector_block_zero, unnamed_zero};

use layout::SizedFile;

/// A test holds of each number below n.
// With `(0..n).all(..)` three times in `unnamed_zero`, its two returns stayed open.
#[tactic(auto, using(laws::specs::All::all_loop))]
fn all_below<F: Fn(usize) -> bool>(n: usize, test: F) -> bool
    ghost holds: { ℕ → Bool }
    requires callable { (k : ℕ) → k < n → F.pre test k }
    requires answers { (k : ℕ) (r : Bool) → k < n → F.post test k r → r ≡ holds k }
    ensures { result ≡ all_to holds n }
{
    for k in 0..n {
        if !test(k) {
            return false;
        }
    }
    true
}

/// The unnamed bytes of block 0 are 0.
#[tactic(auto, unfolding(crate::specs::Unnamed::head_zero))]
fn head_zero(file: &SizedFile<'_>) -> bool
    ensures { result ≡ head_zero file.now.bytes.now }
{
    wire::zero_at(file.bytes, 2, 2) && wire::zero_at(file.bytes, 178, 330)
}

/// The unnamed bytes of phy n's block are 0.
#[tactic(auto, unfolding(crate::specs::Unnamed::phy_block_zero))]
fn phy_block_zero(file: &SizedFile<'_>, n: usize) -> bool
    requires { n < file.now.counts.phys }
    ensures { result ≡ phy_block_zero file.now.bytes.now n }
{
    wire::zero_at(file.bytes, layout::phy_place(n) + 105, 403)
}

/// The bytes behind the rows in their block b are 0.
#[tactic(auto, unfolding(crate::specs::Unnamed::row_block_zero))]
fn row_block_zero(file: &SizedFile<'_>, b: usize) -> bool
    requires { b < row_blocks file.now.counts.rows }
    ensures { result ≡ row_block_zero file.now.bytes.now file.now.counts.phys file.now.counts.rows b }
{
    let used = 20 * (usize::from(file.counts.rows) - 25 * b).min(25);
    wire::zero_at(
        file.bytes,
        file.counts.row_block_place(b) + used,
        508 - used,
    )
}

/// The bytes behind configuration and status are 0.
#[tactic(auto, unfolding(crate::specs::Unnamed::controller_block_zero))]
fn controller_block_zero(file: &SizedFile<'_>) -> bool
    ensures { result ≡ controller_block_zero file.now.bytes.now file.now.counts.phys file.now.counts.rows }
{
    wire::zero_at(file.bytes, file.counts.controller_place() + 212, 296)
}

/// The bytes behind phy n's connector are 0.
#[tactic(auto, unfolding(crate::specs::Unnamed::connector_block_zero))]
fn connector_block_zero(file: &SizedFile<'_>, n: usize) -> bool
    requires { n < file.now.counts.phys }
    ensures { result ≡ connector_block_zero file.now.bytes.now file.now.counts.phys file.now.counts.rows n }
{
    wire::zero_at(file.bytes, file.counts.connector_place(n) + 36, 472)
}

fn phy_blocks_zero(file: &SizedFile<'_>) -> bool
    ensures { result ≡ all_to (phy_block_zero file.now.bytes.now) file.now.counts.phys }
{
    all_below(usize::from(file.counts.phys), |n| phy_block_zero(file, n))
}

fn row_blocks_zero(file: &SizedFile<'_>) -> bool
    ensures { result ≡ all_to (row_block_zero file.now.bytes.now file.now.counts.phys file.now.counts.rows) (row_blocks file.now.counts.rows) }
{
    all_below(file.counts.row_blocks(), |b| row_block_zero(file, b))
}

fn connector_blocks_zero(file: &SizedFile<'_>) -> bool
    ensures { result ≡ all_to (connector_block_zero file.now.bytes.now file.now.counts.phys file.now.counts.rows) file.now.counts.phys }
{
    all_below(
        usize::from(file.counts.phys),
        |n| connector_block_zero(file, n),
    )
}

/// The bytes that nothing names are 0 in every block.
#[tactic(auto, unfolding(crate::specs::Unnamed::unnamed_zero))]
pub fn unnamed_zero(file: &SizedFile<'_>) -> bool
    ensures { result ≡ unnamed_zero file.now.bytes.now file.now.counts.phys file.now.counts.rows }
{
    head_zero(file)
        && phy_blocks_zero(file)
        && row_blocks_zero(file)
        && controller_block_zero(file)
        && connector_blocks_zero(file)
}
