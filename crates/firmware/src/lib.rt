//! Code 4, firmware download (W-207). It works on the body of its request, the buffer after its
//! header, on the tables, and on the stage that the caller lends.
#![tactic(auto)]

ghost use Rattle.std.specs.Prelude.{◌≡◌, true, ◌+◌, ◌≤◌, length};
ghost use Rattle.laws.specs.Splice.{splice};
ghost use Rattle.codes.specs.Numbers.{code_of};
ghost use Rattle.adapter.specs.Changed.{leaves};
ghost use Rattle.tables.specs.Tables.{tables_of};
ghost use Rattle.download.specs.Body.{buffer_length, validates, image_place, image_of};
ghost use Rattle.firmware.specs.Firmware.{downloads, blocks_hold, buffer_length_holds, image_sound, acknowledged, validated, validation, commit, load_firmware};
ghost use Rattle.codes.specs.Codes.{success};

use codes::ReturnCode;

/// How many bytes a stage has.
pub const STAGE_SIZE: usize = 16384;

// The validate flag is set. No other flag is read.
#[tactic(auto, unfolding(download::specs::Body::validates))]
fn validates(body: &[u8]) -> bool
    requires { image_place ≤ length body.now }
    ensures { result ≡ validates body.now }
{
    wire::read32(body, download::FLAGS) % 2 == 1
}

// The length is that of 1 to 32 blocks.
#[tactic(auto, unfolding(crate::specs::Firmware::blocks_hold))]
fn blocks_hold(n: u32) -> bool
    ensures { result ≡ blocks_hold n }
{
    n % 512 == 0 && n >= 512 && n <= 16384
}

#[tactic(auto, using(crate::proofs::CodeLaws::blocks_by, laws::specs::Choice::picks, crate::proofs::CodeLaws::none_by), unfolding(crate::specs::Firmware::buffer_length_holds))]
fn length_holds(body: &[u8]) -> bool
    requires { image_place ≤ length body.now }
    ensures { result ≡ buffer_length_holds body.now }
{
    let n = wire::read32(body, download::BUFFER_LENGTH);
    if validates(body) {
        blocks_hold(n)
    } else {
        n == 0
    }
}

// Each block of the image has its check.
#[tactic(auto, using(crate::proofs::CodeLaws::image_lent))]
fn image_sound(body: &[u8]) -> bool
    requires { image_place + buffer_length body.now ≤ length body.now }
    ensures { result ≡ image_sound body.now }
{
    let n = wire::read32(body, download::BUFFER_LENGTH) as usize;
    block::all_sound(&body[download::DATA..download::DATA + n], n / 512)
}

// Copies the image to the start of the stage.
#[tactic(auto, using(crate::proofs::CodeLaws::image_copied))]
fn copy_image(stage: &mut [u8; STAGE_SIZE], body: &[u8])
    requires few { buffer_length body.now ≤ STAGE_SIZE }
    requires body_in_bounds { image_place + buffer_length body.now ≤ length body.now }
    ensures { stage.new ≡ splice stage.old 0 (image_of body.now) }
{
    let n = wire::read32(body, download::BUFFER_LENGTH) as usize;
    wire::copy_part(stage, 0, body, download::DATA, n);
}

// Sets status and severity to 0.
#[tactic(auto, unfolding(crate::specs::Firmware::acknowledged))]
fn acknowledge(body: &mut [u8])
    requires { image_place ≤ length body.old }
    ensures { body.new ≡ acknowledged body.old }
{
    wire::clear(body, download::STATUS, 4);
}

// Copies the image to the stage, and notes that it is staged.
#[tactic(auto, using(crate::proofs::CodeLaws::image_staged_lem))]
fn stage_image(tables: &mut [u8; tables::SIZE], stage: &mut [u8; STAGE_SIZE], body: &mut [u8])
    requires bound { (512 ≤ buffer_length body.old) × (buffer_length body.old ≤ STAGE_SIZE) }
    requires body_in_bounds { image_place + buffer_length body.old ≤ length body.old }
    ensures { downloads success (tables_of tables.new) stage.new body.new
        ≡ validated (tables_of tables.old) stage.old body.old }
{
    copy_image(stage, body);
    staged::note_image(
        tables,
        body[download::DATA..download::DATA + 8].try_into().unwrap(),
    );
    acknowledge(body);
}

#[tactic(auto, using(crate::proofs::CodeLaws::blocks_some, crate::proofs::CodeLaws::blocks_few, laws::specs::Choice::picks), unfolding(crate::specs::Firmware::validation))]
fn validate(
    tables: &mut [u8; tables::SIZE],
    stage: &mut [u8; STAGE_SIZE],
    body: &mut [u8],
) -> Result<(), ReturnCode>
    requires body_value { blocks_hold (buffer_length body.old) ≡ true }
    requires body_in_bounds { image_place + buffer_length body.old ≤ length body.old }
    ensures { downloads (code_of result) (tables_of tables.new) stage.new body.new
        ≡ validation (tables_of tables.old) stage.old body.old }
{
    if !image_sound(body) {
        return Err(ReturnCode::Failed);
    }
    stage_image(tables, stage, body);
    Ok(())
}

// Makes the staged image the running one. The stage is not lent to it.
#[tactic(auto, using(crate::proofs::CodeLaws::commit_by, laws::specs::Choice::picks), unfolding(crate::specs::Firmware::commit))]
fn commit(tables: &mut [u8; tables::SIZE], body: &mut [u8]) -> Result<(), ReturnCode>
    requires { image_place ≤ length body.old }
    ensures { leaves (code_of result) (tables_of tables.new) body.new ≡ commit (tables_of tables.old) body.old }
{
    if !staged::is_staged(tables) {
        return Err(ReturnCode::Failed);
    }
    staged::make_current(tables);
    acknowledge(body);
    Ok(())
}

/// Validates and stages an image, or makes the staged one current. A refusal leaves tables, stage
/// and body as they were.
#[tactic(auto, using(crate::proofs::CodeLaws::length_blocks, laws::specs::Choice::picks, crate::proofs::CodeLaws::beside_by), unfolding(crate::specs::Firmware::load_firmware))]
pub fn firmware_download(
    tables: &mut [u8; tables::SIZE],
    stage: &mut [u8; STAGE_SIZE],
    body: &mut [u8],
) -> Result<(), ReturnCode>
    requires { image_place + buffer_length body.old ≤ length body.old }
    ensures { downloads (code_of result) (tables_of tables.new) stage.new body.new
        ≡ load_firmware (tables_of tables.old) stage.old body.old }
{
    if !length_holds(body) {
        return Err(ReturnCode::InvalidParameter);
    }
    if validates(body) {
        validate(tables, stage, body)
    } else {
        commit(tables, body)
    }
}
