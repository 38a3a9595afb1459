//! Devices that fail.
use asset_scripts::{Device, RunEnd, ScriptFault};
use asset_standing::waits_script;
use asset_test_tools::{failing, taking_pieces};
use std::alloc::Global;

/// A script of one transaction.
const ONE: &[u8] = b"initiate 7\nbegin 7\n";

/// Its report.
const ITS_REPORT: &str = "7 running\n";

/// Returns how a report of a script ends whose writer takes this many bytes.
fn short_once(alloc: Global, room: usize) -> Result<RunEnd, ScriptFault> {
    let mut input = Device::new(ONE);
    let mut output = Device::new(taking_pieces(ITS_REPORT, 1, room, false));
    waits_script(alloc, &mut input, &mut output, 10_000)
}

/// Returns how a report of a script ends whose writer takes this many bytes. If memory runs out once, it is asked for again.
fn ends_short(alloc: Global, room: usize) -> Result<RunEnd, ScriptFault> {
    match short_once(alloc, room) {
        Err(ScriptFault::NoMemory) => short_once(alloc, room),
        end => end,
    }
}

/// Returns how a report ends whose reader fails after these bytes, and how many bytes it wrote.
fn broken_once(alloc: Global, left: &[u8]) -> (Result<RunEnd, ScriptFault>, usize) {
    let mut written = Vec::new(alloc);
    let mut input = Device::new(failing(left, 65_536));
    let mut output = Device::new(&mut written);
    let end = waits_script(alloc, &mut input, &mut output, 10_000);
    drop(output);
    (end, written.len())
}

/// Returns how a report ends whose reader fails after these bytes, and how many bytes it wrote. If memory runs out once and nothing was
/// written, it is asked for again.
fn ends_broken(alloc: Global, left: &[u8]) -> (Result<RunEnd, ScriptFault>, usize) {
    match broken_once(alloc, left) {
        (Err(ScriptFault::NoMemory), 0) => broken_once(alloc, left),
        ended => ended,
    }
}

#[test]
fn writers_that_fail_are_told_of(rt: HostRuntime) {
    for room in 0..10 {
        let end = ends_short(rt.alloc(), room);
        assert_eq!(rt; end, Err(ScriptFault::Write), "at {room}");
    }
    let end = ends_short(rt.alloc(), 10);
    assert_eq!(rt; end, Ok(RunEnd::Finished));
}

#[test]
fn readers_that_fail_are_told_of(rt: HostRuntime) {
    for count in 0..ONE.len() {
        let (end, written) = ends_broken(rt.alloc(), &ONE[..count]);
        assert_eq!(rt; end, Err(ScriptFault::Read), "at {count}");
        assert_eq!(rt; written, 0, "at {count}");
    }
}
