// Gates, which see each call of a run before and after it.

/// Is told of each call of a run. It promises nothing: a test may hold a caller up in it.
pub trait Gate {
    /// Comes ahead of a caller's call. Calls are numbered from 1 within each caller.
    fn before(&self, caller: u32, call: u32);

    /// Comes behind it.
    fn after(&self, caller: u32, call: u32);
}

/// The gate that does nothing.
#[derive(Clone, Copy, Debug)]
pub struct FreeGate;

impl Gate for FreeGate {
    fn before(&self, _caller: u32, _call: u32) {}

    fn after(&self, _caller: u32, _call: u32) {}
}
