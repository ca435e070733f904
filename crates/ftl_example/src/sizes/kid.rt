//! The kids that a node has at least.

/// A kid of any class, or of this one.
#[derive(Clone, Copy)]
pub enum Kid {
    Any,
    OfClass(u32),
}

/// The kids in a child: two at most.
#[derive(Clone, Copy)]
pub enum Kids {
    Nothing,
    One(Kid),
    Two(Kid, Kid),
}
