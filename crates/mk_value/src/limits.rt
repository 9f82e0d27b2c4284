/// The most bytes of a name.
pub const MAX_NAME: usize = 31;

/// The most properties of a schema.
pub const MAX_PROPERTIES: usize = 64;

/// How deep schemas may nest, the outermost counted.
pub const MAX_DEPTH: usize = 8;

/// The most bytes of a text or a byte string.
pub const MAX_BYTES: usize = 262_144;

/// The most rows of a view.
pub const MAX_ROWS: usize = 16_777_216;

/// The most named views of a root.
pub const MAX_VIEWS: usize = 1_024;

/// The most bytes of a structure text: the name of a view and its properties.
pub const MAX_STRUCTURE: usize = 1_048_576;
