// What of the path is on path, by the addresses of the run's instructions.
ghost use Rattle.std.specs.Prelude.{◌≡◌, ◌+◌, ◌<◌, ◌≤◌, ◌^◌, slice_get, Some};
ghost use Rattle.inst_buf.specs.Buffer.{entries};
ghost use Rattle.ace_rules.specs.Walks as walks;

use inst_buf::InstBuf;
use pipe_latch::IdEx;
use rv_isa::Trace;

/// Whether instruction `i` of a run is at a word address.
fn is_at(trace: &Trace, i: u32, pc: u32) -> bool
    ensures { result ≡ walks.is_at (slice_get trace.now.entries i) pc }
{
    i < trace.len() && 4 * u64::from(pc) == u64::from(trace.entry(i).pc)
}

/// The word address of entry `k` of the instruction buffer, which holds its entries in its first slots.
fn waiting_address(buffer: &InstBuf, k: u32) -> Option<u32>
    requires { walks.IsInOrder buffer.now }
    ensures { result ≡ slice_get (walks.waiting_addresses (entries buffer.now)) k }
{
    if k < buffer.len() {
        Some(buffer.slot(k).pc)
    } else {
        None
    }
}

/// The word address of entry `k` of the path.
pub fn path_address(d: &IdEx, buffer: &InstBuf, k: u32) -> Option<u32>
    requires { walks.IsInOrder buffer.now }
    ensures { result ≡ slice_get (walks.path_addresses d.now (entries buffer.now)) k }
{
    if !d.valid {
        waiting_address(buffer, k)
    } else if k == 0 {
        Some(d.pc)
    } else {
        waiting_address(buffer, k - 1)
    }
}

/// How many entries of the path are on path, where the instructions before instruction `i` have left EX.
pub fn count_on_path(d: &IdEx, buffer: &InstBuf, trace: &Trace, i: u32) -> u32
    requires order { walks.IsInOrder buffer.now }
    requires room { i + 8 < 2 ^ 32 }
    ensures count { result ≡ walks.count_on_path trace.now.entries i (walks.path_addresses d.now (entries buffer.now)) }
    ensures within { result ≤ 5 }
{
    for k in 0..5u32 {
        match path_address(d, buffer, k) {
            Some(pc) if is_at(trace, i + k, pc) => {}
            _ => return k,
        }
    }
    5
}
