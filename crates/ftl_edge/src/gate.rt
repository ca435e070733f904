/// What workers call as they begin an item. It lets a test hold them back, and promises nothing.
pub trait Gate: Sync {
    /// Worker `worker` begins item `item`.
    fn before(&self, worker: u32, item: u32);
}

/// Does nothing.
#[derive(Clone, Copy, Debug)]
pub struct OpenGate;

impl Gate for OpenGate {
    fn before(&self, _worker: u32, _item: u32) {}
}
