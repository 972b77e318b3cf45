//! What firmware is staged, in the tables that the caller lends (W-207): a byte that says whether
//! there is an image, and the image's revisions behind it.
#![tactic(auto)]

ghost use Rattle.std.specs.Prelude.{◌≡◌, eqb};
ghost use Rattle.adapter.specs.Staged.{image_staged, staged_holds};
ghost use Rattle.adapter.specs.Adapter.{with_staged, made_current};
ghost use Rattle.tables.specs.Tables.{tables_of};

// Where the staged revisions stand, and where the running ones do in the controller's
// configuration.
const STAGED_REVISIONS: usize = tables::STAGED + 1;

const REVISIONS: usize = 133;

/// An image is staged.
#[tactic(auto, unfolding(tables::specs::Tables::tables_of))]
pub fn is_staged(tables: &[u8; tables::SIZE]) -> bool
    ensures { result ≡ eqb (tables_of tables.now).staged.flag 1 }
{
    tables[tables::STAGED] == 1
}

/// The byte is 1, or it is 0 and so are the revisions.
#[tactic(auto, using(laws::specs::Choice::picks), unfolding(adapter::specs::Staged::staged_holds, tables::specs::Tables::tables_of))]
pub fn staged_holds(tables: &[u8; tables::SIZE]) -> bool
    ensures { result ≡ staged_holds (tables_of tables.now).staged }
{
    match tables[tables::STAGED] {
        0 => wire::zero_at(tables, STAGED_REVISIONS, 8),
        flag => flag == 1,
    }
}

/// Notes that an image with these revisions is staged.
#[tactic(auto, using(crate::proofs::StoredLaws::image_noted))]
pub fn note_image(tables: &mut [u8; tables::SIZE], revisions: &[u8; 8])
    ensures { tables_of tables.new ≡ with_staged (tables_of tables.old) (image_staged revisions.now) }
{
    wire::copy_at(tables, STAGED_REVISIONS, revisions);
    tables[tables::STAGED] = 1;
}

/// Makes the staged revisions the running ones, and leaves nothing staged.
#[tactic(auto, using(crate::proofs::StoredLaws::current_made))]
pub fn make_current(tables: &mut [u8; tables::SIZE])
    ensures { tables_of tables.new ≡ made_current (tables_of tables.old) }
{
    tables.copy_within(
        STAGED_REVISIONS..tables::SIZE,
        tables::CONTROLLER + REVISIONS,
    );
    wire::clear(tables, tables::STAGED, 9);
}
