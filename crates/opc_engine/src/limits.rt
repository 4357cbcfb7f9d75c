//! The limits of the files.

/// The greatest number of bytes of a layout.
pub const MAX_LAYOUT: usize = 67_108_864;

/// The greatest number of bytes of a kernel file: 16 kernels of reach 64 with two transmissions.
pub const MAX_KERNELS: usize = 1_065_072;

/// The greatest number of bytes of a rule file.
pub const MAX_RULES: usize = 65_536;

/// The greatest number of bytes of a moves file.
pub const MAX_MOVES: usize = 1_048_576;

/// The greatest number of pixels of a window that is printed.
pub const MAX_WINDOW: usize = 4_194_304;
