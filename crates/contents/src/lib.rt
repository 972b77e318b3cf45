//! What an adapter file holds (document 01, "Adapter file"), copied into the tables that the caller lends.
#![tactic(auto)]

ghost use Rattle.std.specs.Prelude.{◌≡◌, ◌+◌, ◌*◌, ◌<◌, ◌≤◌, List, ℕ, length};
ghost use Rattle.laws.specs.Flat.{pieces};
ghost use Rattle.laws.specs.Splice.{part, splice};
ghost use Rattle.tables.specs.Tables.{rows_start, connectors_start, tables_of};
ghost use Rattle.contents.specs.Contents.{adapter_of};
ghost use Rattle.contents.specs.Parse.{headed, phys_from, rows_from, controlled, connectors_from, rest_from};

use layout::SizedFile;

/// Fills a section of `N` entries of `W` bytes: the first `count` are those that stand in a file where `place` says, and the others are zero.
#[tactic(auto, using(laws::specs::Flat::put_loop, crate::proofs::Laws::entry_put, crate::proofs::Laws::entry_long))]
fn fill_section<const W: usize, const N: usize, F: Fn(usize) -> usize>(
    section: &mut [u8],
    file: &[u8],
    count: usize,
    place: F,
)
    ghost entry: { ℕ → List ℕ }
    requires count { count ≤ N }
    requires section_len { length section.old ≡ W * N }
    requires callable { (i : ℕ) → i < count → F.pre place i }
    requires placed { (i : ℕ) (r : ℕ) → i < count → F.post place i r → (r + W ≤ length file.now) × (part file.now r W ≡ entry i) }
    ensures section { section.new ≡ pieces entry count W N 0 }
    ensures section_len { length section.new ≡ W * N }
{
    section.fill(0);
    for i in 0..count {
        wire::copy_part(section, W * i, file, place(i), W);
    }
}

/// The two counts and the driver info.
#[tactic(auto, unfolding(crate::specs::Parse::headed))]
fn fill_head(tables: &mut [u8; tables::SIZE], file: &SizedFile<'_>)
    ensures { tables.new ≡ headed tables.old file.now.bytes.now file.now.counts.phys file.now.counts.rows }
{
    let counts = [file.counts.phys, file.counts.rows];
    wire::copy_at(tables, 0, &counts);
    wire::copy_part(tables, tables::INFO, file.bytes, 4, 174);
}

/// All 32 phys of the tables, zero from p on.
#[tactic(auto, unfolding(crate::specs::Parse::phy_from))]
fn fill_phys(tables: &mut [u8; tables::SIZE], file: &SizedFile<'_>)
    ensures { tables.new ≡ splice tables.old 176 (phys_from file.now.bytes.now file.now.counts.phys) }
{
    let p = usize::from(file.counts.phys);
    let phys = &mut tables[tables::PHYS..tables::ROWS];
    fill_section::<{ phy::SIZE }, 32, _>(phys, file.bytes, p, layout::phy_place);
}

/// All 64 rows of the tables, zero from a on.
#[tactic(auto, using(crate::proofs::Laws::row_placed))]
fn fill_rows(tables: &mut [u8; tables::SIZE], file: &SizedFile<'_>)
    ensures { tables.new ≡ splice tables.old rows_start (rows_from file.now.bytes.now file.now.counts.phys file.now.counts.rows) }
{
    let a = usize::from(file.counts.rows);
    let rows = &mut tables[tables::ROWS..tables::CONTROLLER];
    fill_section::<20, 64, _>(rows, file.bytes, a, |i| file.counts.row_place(i));
}

/// The controller's configuration and status (W-204), which stand one behind the other in the file and in the tables.
#[tactic(auto, unfolding(crate::specs::Parse::controlled))]
fn fill_controller(tables: &mut [u8; tables::SIZE], file: &SizedFile<'_>)
    ensures { tables.new ≡ controlled tables.old file.now.bytes.now file.now.counts.phys file.now.counts.rows }
{
    wire::copy_part(
        tables,
        tables::CONTROLLER,
        file.bytes,
        file.counts.controller_place(),
        212,
    );
}

/// All 32 connectors of the tables (W-204), zero from p on.
#[tactic(auto, using(crate::proofs::Laws::connector_placed))]
fn fill_connectors(tables: &mut [u8; tables::SIZE], file: &SizedFile<'_>)
    ensures { tables.new ≡ splice tables.old connectors_start (connectors_from file.now.bytes.now file.now.counts.phys file.now.counts.rows) }
{
    let p = usize::from(file.counts.phys);
    let connectors = &mut tables[tables::CONNECTORS..tables::STAGED];
    fill_section::<36, 32, _>(
        connectors,
        file.bytes,
        p,
        |n| file.counts.connector_place(n),
    );
}

/// What stands behind the rows; an opening leaves nothing staged (W-207).
#[tactic(auto, unfolding(crate::specs::Parse::rest_from))]
fn fill_rest(tables: &mut [u8; tables::SIZE], file: &SizedFile<'_>)
    ensures { tables.new ≡ rest_from tables.old file.now.bytes.now file.now.counts.phys file.now.counts.rows }
{
    fill_controller(tables, file);
    fill_connectors(tables, file);
    wire::clear(tables, tables::STAGED, 9);
}

/// The tables of a file, whatever stood in them.
#[tactic(auto, using(crate::proofs::ParseLaws::parsed))]
pub fn parse(tables: &mut [u8; tables::SIZE], file: &SizedFile<'_>)
    ensures { tables_of tables.new ≡ adapter_of file.now.bytes.now file.now.counts.phys file.now.counts.rows }
{
    fill_head(tables, file);
    fill_phys(tables, file);
    fill_rows(tables, file);
    fill_rest(tables, file);
}
