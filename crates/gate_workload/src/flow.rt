// From where to where a datagram goes.
use gate_base::Addr;

/// The addresses and ports of a datagram.
#[derive(Clone, Copy, Debug, PartialEq, Eq)]
pub struct Flow {
    pub source: Addr,
    pub source_port: u16,
    pub destination: Addr,
    pub destination_port: u16,
}
