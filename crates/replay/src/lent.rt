// Buffers that are lent full of dirt, and what stands in them afterwards.

// A byte that no operation leaves but where it writes nothing.
pub const DIRT: u8 = 170;

pub fn soil(out: &mut [u8]) {
    for i in 0..out.len() {
        out[i] = DIRT;
    }
}

// Whether a buffer is the expected bytes, and another byte past them.
pub fn holds(out: &[u8], expected: &[u8], past: u8) -> bool {
    if expected.len() > out.len() {
        return false;
    }
    for i in 0..out.len() {
        let mut byte = past;
        if i < expected.len() {
            byte = expected[i];
        }
        if out[i] != byte {
            return false;
        }
    }
    true
}
