// Why a call gave up before it answered.
ghost use Rattle.std.specs.Prelude.{◌≡◌};
ghost use Rattle.codes.specs.Numbers.{error_number, call_of};

/// What was wrong with what a call was lent, under document 01's numbers ("The call's own number").
#[derive(Clone, Copy, Debug, PartialEq, Eq, Hash)]
pub enum CallError {
    ShortBuffer = crate::SHORT_BUFFER as isize,
    BadText = crate::BAD_TEXT as isize,
    BadFileLength = crate::BAD_FILE_LENGTH as isize,
    BlockCheck = crate::BLOCK_CHECK as isize,
    BadField = crate::BAD_FIELD as isize,
    SharedRow = crate::SHARED_ROW as isize,
    /// Of a medium, and of a stage.
    BadMediumLength = crate::BAD_MEDIUM_LENGTH as isize,
    BadState = crate::BAD_STATE as isize,
}

impl From<CallError> for u32 {
    ghost from_gives = { λ error number. number ≡ error_number error };

    fn from(error: CallError) -> u32 {
        error as u32
    }
}

/// The call's own number: 0, or the error's.
pub fn call_number(call: Result<(), CallError>) -> u32
    ensures { result ≡ call_of call }
{
    match call {
        Ok(()) => 0,
        Err(error) => u32::from(error),
    }
}
