//! The outside of the process: files by their paths, and streams that leave it.
#![tactic(auto)]

mod device;
mod files;
mod held_bytes;
mod held_files;
mod opener;
mod stream;

pub use device::Device;
pub use files::FileCabinet;
pub use held_files::HeldFiles;
pub use opener::{HostFiles, Opener};
pub use stream::Stream;
