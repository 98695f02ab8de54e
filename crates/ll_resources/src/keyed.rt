//! Entries by their key.

/// The open entries of a key that are still to come, and those under key 0, the newest first.
#[derive(Clone, Copy)]
pub struct Keyed {
    pub(crate) key: u32,
    // Those of the key come before this place.
    pub(crate) own: usize,
    // Those under key 0 come before this place.
    pub(crate) any: usize,
}
