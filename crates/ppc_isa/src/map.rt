//! Which general registers stand in the host's cache registers.

/// The GPRs, below 32 and pairwise different, that ebx, esi and edi hold. Every other GPR stands in
/// its home word.
#[derive(Clone, Copy)]
pub struct Map {
    pub ebx: Option<u8>,
    pub esi: Option<u8>,
    pub edi: Option<u8>,
}
