//! A script as a caller that answers reads of the limit registers of sensors from what it read and wrote before (Linux regmap).
//!
//! Definitions: `specs/`, and those of `cache_laws`.
#![tactic(auto)]

mod access;
mod caller;
mod devices;
mod known;
mod laws;

pub use caller::{CachedCaller, CachedData, cached_scripts_are_fair};
pub use devices::cacheable;
pub use laws::kept_sensors_are_left_alone;
