// The calls of the simulator (document 01, "A SAS host adapter as a console sees it"; W-201, W-207): opening an adapter, and handling one
// request, under the first header or the Linux one. State, medium, stage and buffer are bytes that the caller lends. Each call is determined by equation from
// its inputs, after refusals as after success, and none has a `requires`. The opening only reads the medium. `check_state`, `buffer_number` and
// `reply` are the parts of a request, for a run that tests state, medium and stage once; `reply` requires what the first two test.
#![tactic(auto)]

mod handle;

pub use firmware::STAGE_SIZE;
pub use handle::{buffer_number, check_buffer, check_state, reply, request, request_linux};
pub use state::{SIZE, open};
