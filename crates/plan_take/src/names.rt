//! Whether the names of members are compared.
use diff_orders::with_bytes;
use sf_base::Name20;

/// Whether members are equal only if their names are.
#[derive(Clone, Copy)]
pub(crate) enum Names {
    Compared,
    Ignored,
}

impl Names {
    /// Whether members with these names can be equal.
    pub(crate) fn are_equal(self, a: &Name20, b: &Name20) -> bool {
        match self {
            Names::Compared => *a == *b,
            Names::Ignored => true,
        }
    }

    /// A hash key with the name appended, if names are compared.
    pub(crate) fn with_name(self, key: u64, name: &Name20) -> u64 {
        match self {
            Names::Compared => with_bytes(key, name.bytes()),
            Names::Ignored => key,
        }
    }
}
