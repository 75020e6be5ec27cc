/// What every server calls before each of its steps. A test can hold servers up there, so that their steps fall in the
/// order that it wants; a run uses [`Open`]. It sees no letter and gives nothing, so what a server does can't depend on it.
pub trait Gate: Sync {
    /// A server, by number, is about to take a step, and has taken so many before.
    fn at(&self, server: u16, step: u64);
}

/// The gate that holds nobody up.
#[derive(Clone, Copy, Debug)]
pub struct Open;

impl Gate for Open {
    fn at(&self, _server: u16, _step: u64) {}
}
