//! Bytes that memory begins with: zeros at their end take no memory.
#![tactic(auto)]

mod image;

pub use image::Image;
