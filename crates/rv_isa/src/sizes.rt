//! How large a frame can be, and how many values fit in one: both follow from how far a load reaches.

/// How many bytes below an address a load or a store reaches. It reaches as many bytes behind it, that address included.
pub const REACH_DOWN: u32 = 2048;

/// The most bytes of a frame each of whose words is within reach from the first one, and which one addition gives back.
pub const NARROW_FRAME: u32 = REACH_DOWN - 4;

/// The most bytes of a frame: two additions give it back.
pub const WIDE_FRAME: u32 = 2 * NARROW_FRAME;

/// The most values of a function: a frame has a word for the way back, and one for each value.
pub const MOST_VALUES: u32 = WIDE_FRAME / 4 - 1;
