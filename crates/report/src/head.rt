// The numbers of a head line.
#[derive(Clone, Copy)]
pub(crate) struct Head {
    pub(crate) k: usize,
    pub(crate) q: usize,
    pub(crate) p: usize,
}
