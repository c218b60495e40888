// The length and the protocol numbers of RFC 791, 3.1, and the ports of the services whose payloads hold addresses.

/// The most octets of an IPv4 datagram: what its total length can say (RFC 791, 3.1).
pub const LONGEST_DATAGRAM: usize = 65_535;

/// The protocol number of ICMP.
pub const ICMP: u8 = 1;

/// The protocol number of TCP.
pub const TCP: u8 = 6;

/// The protocol number of UDP.
pub const UDP: u8 = 17;

/// The port of an FTP server's control connections (RFC 959, 8).
pub const CONTROL_PORT: u16 = 21;

/// The port of a DNS server (RFC 1035, 4.2).
pub const DNS_PORT: u16 = 53;

/// The port of an SNMP agent (RFC 1157, 4).
pub const SNMP_PORT: u16 = 161;

/// The port to which SNMP traps are sent (RFC 1157, 4).
pub const TRAP_PORT: u16 = 162;
