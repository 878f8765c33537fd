ghost use Rattle.std.specs.Prelude.{◌≡◌, ◌*◌, ◌↔◌, IsTrue, length};
ghost use Rattle.call_data.specs.CallData.{bytes_of_call};
ghost use Rattle.motchidu_c.specs.Judged.{AreJudged, HaveRoom, IsJudged};

use bpf_machine::{Ran, run};
use bpf_verify::Filter;
use byteorder::{ByteOrder, LittleEndian};
use call_data::SysCall;

/// Runs a filter on each of the calls, and writes the value and the steps of each.
pub(crate) fn run_each(filter: &Filter, calls: &[u8], values: &mut [u32], steps: &mut [u32])
    requires { HaveRoom calls.now values.old steps.old }
    ensures { AreJudged filter.now calls.now values.new steps.new }
{
    for at in 0..values.len() {
        let ran = run_on(filter, &calls[64 * at..64 * at + 64]);
        values[at] = ran.value;
        steps[at] = ran.steps;
    }
}

/// Runs a filter on the call with these bytes.
fn run_on(filter: &Filter, bytes: &[u8]) -> Ran
    requires { length bytes.now ≡ 64 }
    ensures { IsJudged filter.now bytes.now result.value result.steps }
{
    run(filter, &call_of(bytes))
}

/// The call with these bytes.
pub(crate) fn call_of(bytes: &[u8]) -> SysCall
    requires { length bytes.now ≡ 64 }
    ensures { bytes_of_call result ≡ bytes.now }
{
    let mut args = [0u64; 6];
    LittleEndian::read_u64_into(&bytes[16..], &mut args);
    SysCall {
        nr: LittleEndian::read_u32(&bytes[..4]),
        arch: LittleEndian::read_u32(&bytes[4..8]),
        ip: LittleEndian::read_u64(&bytes[8..16]),
        args,
    }
}

/// Whether there is a value and a number of steps for each call.
pub(crate) fn have_room(calls: &[u8], values: &[u32], steps: &[u32]) -> bool
    ensures { IsTrue result ↔ HaveRoom calls.now values.now steps.now }
{
    calls.len() % 64 == 0 && calls.len() / 64 == values.len() && steps.len() == values.len()
}
