// The ticket of a line that logged in.

// Only logging in makes one, and only hanging up takes one apart. It has no `Drop`, so that a host that lets one go is refused.
pub(crate) struct Ticket {
    pub(crate) line: usize,
}
