//! Types whose values may go to another thread, and be read by several at once.

use crate::{Fragments, Near};

fn is_shared<T: Send + Sync>() {}

/// The bound is proved of each type.
fn shared_types() {
    is_shared::<Fragments>();
    is_shared::<Near>();
}
