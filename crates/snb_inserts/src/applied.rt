//! Why an insert isn't applied.

use snb_schema::Missing;

/// Why an insert isn't applied.
#[derive(Clone, Copy)]
pub enum Applied {
    /// The first node that the insert refers to and that isn't held.
    Missing { missing: Missing },
    /// The key of the insert is held.
    Duplicate,
    /// Memory doesn't suffice.
    Memory,
}
