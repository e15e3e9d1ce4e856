// The store's hash: 64-bit FNV-1a with a cell in a byte's place.
const START: u64 = 0xcbf29ce484222325;

const PRIME: u64 = 0x100000001b3;

pub fn hash(store: &[i32]) -> u64 {
    store.iter().fold(START, |h, cell| {
        (h ^ u64::from(cell.cast_unsigned())).wrapping_mul(PRIME)
    })
}
