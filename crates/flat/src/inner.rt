// What turns lent bytes and numbers into our types and back.
pub mod answers;
pub mod buffers;
pub mod marks;
pub mod tables;

// The length of a lent table.
const LENGTH: usize = 1586;
