// For how long a use keeps a binding.
use gate_base::SECOND;

/// For how long a use by a UDP header keeps a binding, in nanoseconds: 300 seconds (RFC 4787, REQ-5).
pub const UDP_TIMEOUT: u64 = 300 * SECOND;

/// For how long a use by an ICMP header keeps a binding, in nanoseconds: 60 seconds (RFC 5508, REQ-2).
pub const ICMP_TIMEOUT: u64 = 60 * SECOND;

/// For how long a use by an address in a DNS message keeps a binding, in nanoseconds: 60 seconds.
pub const NAMED_TIMEOUT: u64 = 60 * SECOND;
