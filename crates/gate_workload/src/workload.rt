// A whole workload.
ghost use Rattle.std.specs.Prelude.{◌≡◌, ◌≤◌, ℕ, IfOk};
ghost use Rattle.gate_workload.specs.Workloads.{IsWhole, settings, workload};

use crate::rounds::Making;
use gate_base::{Items, OutOfMemory};
use std::alloc::Global;

/// What the gateway is run on: the text of its settings, and a capture for each side.
#[derive(Drop)]
pub struct Workload {
    pub settings: Items<u8>,
    pub left: Items<u8>,
    pub right: Items<u8>,
}

/// The settings: both links raw, a pool for each side, and static bindings for the host 10.0.0.5 of each realm and for
/// the name server.
const SETTINGS: &[u8] = b"left.pool_first = \"192.168.200.1\"\n\
left.pool_last = \"192.168.200.254\"\n\
left.link = \"raw\"\n\
right.pool_first = \"172.16.9.1\"\n\
right.pool_last = \"172.16.9.254\"\n\
right.link = \"raw\"\n\
static = [\n\
{ side = \"left\", host = \"10.0.0.5\", alias = \"172.16.9.1\" },\n\
{ side = \"right\", host = \"10.0.0.5\", alias = \"192.168.200.1\" },\n\
{ side = \"right\", host = \"10.0.0.53\", alias = \"192.168.200.53\" },\n\
]\n";

/// The workload of a number, with so many rounds behind the handshake. The number decides what is drawn.
pub fn make(alloc: Global, number: u32, count: u32) -> Result<Workload, OutOfMemory>
    ensures { IfOk result (λ w. w ≡ workload number count) }
{
    let settings = Vec::from_slice(alloc, SETTINGS)?;
    let (left, right) = Making::of(alloc, number, count)?.captures();
    Ok(Workload {
        settings: Items::of(settings),
        left: Items::of(left),
        right: Items::of(right),
    })
}

/// Both captures of a workload of at most 100,000 rounds are read to their ends without a fault.
pub fn captures_are_whole()
    ensures left { (number count : ℕ)
        → count ≤ 100000
        → IsWhole (workload number count).left }
    ensures right { (number count : ℕ)
        → count ≤ 100000
        → IsWhole (workload number count).right }
{}
