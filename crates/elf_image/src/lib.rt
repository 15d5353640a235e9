//! ELF32 files for RISC-V: the image of a program, the file that it is written to, and the image that a file loads.
//!
//! A file is read by its program headers alone, as a loader reads it: sections, flags and alignments are passed over.
#![tactic(auto)]

mod bad_image;
mod field;
mod header;
mod image;
mod part;
mod reading;
mod segments;
mod writing;

pub use bad_image::BadImage;
pub use image::{GREATEST_END, Image, PAGE_SIZE, TEXT_START};
pub use part::{Part, Parts};
pub use reading::{GREATEST_FILE, read};
pub use writing::write;
