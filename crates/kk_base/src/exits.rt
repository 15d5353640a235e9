/// The number with which an image exits where its program's live cells fill the heap.
pub const HEAP_FULL_EXIT: u32 = 101;

/// The number with which an image exits where its program's calls pass the depth.
pub const STACK_FULL_EXIT: u32 = 102;
