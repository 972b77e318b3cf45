//! The requests that report whole tables (document 01, "Request", codes 1 and 20; W-204's 2, 3 and
//! 30). Each fills the body of its request, the buffer after its header, straight from the lent
//! tables, and changes nothing else. None is refused: the answer is a `Result` as that of every
//! control code, and always `Ok`.
#![tactic(auto)]

mod connector_info;
mod part;
mod phy_info;

pub use connector_info::get_connector_info;
pub use part::{get_controller_config, get_controller_status, get_driver_info};
pub use phy_info::get_phy_info;
