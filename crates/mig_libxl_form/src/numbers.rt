/// The type of the record that ends a libxl stream.
pub const LIBXL_END: u32 = 0;

/// The type of the record that the image is behind.
pub const LIBXC_CONTEXT: u32 = 1;

/// The type of a record with pairs of an emulator.
pub const EMULATOR_XENSTORE_DATA: u32 = 2;

/// The type of a record with an emulator's context.
pub const EMULATOR_CONTEXT: u32 = 3;

/// Emulator ids are below this.
pub const EMULATOR_IDS: u32 = 3;

/// Indices of an emulator are below this.
pub const EMULATOR_INDICES: u32 = 256;

/// The types of the records of checkpoints, the last that are known.
pub(crate) const CHECKPOINT_END: u32 = 4;

pub(crate) const CHECKPOINT_STATE: u32 = 5;
