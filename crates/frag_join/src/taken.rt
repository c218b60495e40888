use verdicts::Refusal;

/// What became of a frame.
#[derive(Clone, Copy, Debug, PartialEq, Eq)]
pub enum Taken {
    /// It carries no fragment of a datagram, or is refused before it is looked for one: nothing was done with it.
    Plain,
    /// It carries a fragment of a datagram that isn't complete yet.
    Held,
    /// It carries the fragment that completes a datagram.
    Joined,
    /// It carries a fragment that isn't taken, for this reason.
    Refused(Refusal),
}
