//! How many jobs and reservations a site may name.

/// At most so many jobs of one site are not retired, those that are gone among them.
pub const MAX_JOBS: u64 = 10_000;

/// At most so many ranges of identifiers are retired at one site.
pub const MAX_RANGES: u64 = 1_000;

/// At most so many reservations of one site are not retired, those that are cancelled among them.
pub const MAX_RESERVATIONS: u64 = 1_000;
