//! The hash of keys: at which slot the probe for a key begins.

/// The hash of a map. Which keys have homes that collide depends on the seed.
#[derive(Clone, Copy)]
pub(crate) struct Hash {
    pub(crate) seed: u64,
    // How far a mixed key is shifted right to give the key's home.
    pub(crate) shift: u32,
}
