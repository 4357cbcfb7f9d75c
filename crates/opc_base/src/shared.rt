//! Types whose values may go to another thread, and be read by several at once.

use crate::{Corner, KernelSet, NoWatch, Pix, Rect, Swept};

fn is_shared<T: Send + Sync>() {}

/// The bound is proved of each type.
fn shared_types() {
    is_shared::<Pix>();
    is_shared::<Rect>();
    is_shared::<Corner>();
    is_shared::<Swept>();
    is_shared::<KernelSet>();
    is_shared::<NoWatch>();
}
