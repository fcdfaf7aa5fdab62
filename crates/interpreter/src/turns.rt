//! A step, at one go or in the turns that a machine with probes makes of it.

pub mod hands;
pub mod passing;
pub mod pausing;
pub mod quickly;
pub mod resting;
pub mod trying;
