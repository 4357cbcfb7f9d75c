//! Who is told that a part of the parallel work begins.

/// Is told, by the owner of each part, that its part begins. Nothing rests on what it does.
pub trait Watch {
    /// Part number `part`, from 0, begins.
    fn entered(&self, part: u32);
}

/// Tells nobody.
#[derive(Clone, Copy, Debug, PartialEq, Eq)]
pub struct NoWatch;

impl Watch for NoWatch {
    fn entered(&self, _part: u32) {}
}
