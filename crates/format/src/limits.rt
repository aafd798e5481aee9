// The format's limits, by the names of the Rust. The definitions in specs/Encodings.antt and specs/Delta.antt have the same
// numbers; a wrong one here fails the proof of each function that uses it.

// At most 2^24 values.
pub const MAX_CHUNK_ELEMENTS: usize = 16777216;

// At most 16,384 distinct values.
pub const MAX_DICTIONARY_CARDINALITY: usize = 16384;

// The version byte of every header.
pub const CODEC_VERSION: u8 = 1;

// Deltas to a block, as written.
pub const DELTA_BLOCK_SIZE: usize = 128;

// Deltas to a block, at most, as read: 2^20.
pub const MAX_DELTA_BLOCK_SIZE: u64 = 1048576;

// Levels are 0 to 9.
pub const MAX_LEVEL: u32 = 9;
