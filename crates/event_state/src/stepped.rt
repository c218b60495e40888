// What becomes of a segment that a session takes.

/// What a session hands out that took a segment, and how many changed lines or units wait in it then; None where it ends.
#[derive(Drop)]
pub struct Stepped<P> {
    pub sent: P,
    pub waiting: Option<u64>,
}
