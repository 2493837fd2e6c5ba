// A text is made here before it goes into the lent buffer, which may be too short for it.

// `made_in` of the definitions.
const SCRATCH: usize = 320;

pub fn scratch() -> [u8; SCRATCH] {
    [0u8; SCRATCH]
}
