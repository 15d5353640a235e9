/// The greatest number of bytes that a string in a text stands for.
pub const GREATEST_STRING: usize = 255;
