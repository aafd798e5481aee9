// Values made from a seed, and checksums, as docs/ORACLE.md has them ("States", "Checksum").

// More values than a record has.
pub(crate) const VALUES: usize = 1024;

pub(crate) fn next_state(state: u64) -> u64 {
    state
        .wrapping_mul(6364136223846793005)
        .wrapping_add(1442695040888963407)
}

pub(crate) fn values(seed: u64) -> [u64; VALUES] {
    let mut values = [0; VALUES];
    let mut state = seed;
    for value in values.iter_mut() {
        state = next_state(state);
        *value = state ^ (state >> 33);
    }
    values
}

// FNV-1a, of no bytes.
pub(crate) const FNV_START: u64 = 14695981039346656037;

// FNV-1a, of more bytes.
pub(crate) fn fnv(sum: u64, bytes: &[u8]) -> u64 {
    bytes.iter().fold(sum, |sum, byte| {
        (sum ^ u64::from(*byte)).wrapping_mul(1099511628211)
    })
}
