//! Readers and writers whose failures are counted, a text read to its end, and one written whole.
//!
//! [`Source`] and [`Sink`] say what a reader gave and how often it failed, and the same of a writer; [`FromRead`] and [`ToWrite`] make them of std's. [`read_all`] reads all that a
//! source has, up to a limit, and [`write_text`] writes a text or says that a write failed.
#![tactic(auto)]

mod device;
mod reading;
mod std_devices;
mod writing;

pub use device::{DeviceFault, Sink, Source};
pub use reading::{SourceFault, read_all};
pub use std_devices::{FromRead, ToWrite};
pub use writing::{WriteFault, write_text};
