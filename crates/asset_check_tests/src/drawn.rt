//! Scripts that are drawn: a check is silent exactly if a run looks at every line, and otherwise names first the line at which
//! the run stops.

use asset_check::check_script;
use asset_cli::run_script;
use asset_scripts::{Device, RunEnd, ScriptFault};
use asset_test_tools::next;
use std::alloc::{AllocError, Global};
use std::io;

/// How many scripts are drawn.
const SCRIPTS: usize = 200;

/// Lines and parts of lines.
const LINES: [&[u8]; 26] = [
    b"object 1 100",
    b"object 2 -5",
    b"object 2 7",
    b"initiate 7",
    b"initiate 8 7",
    b"begin 7",
    b"read 7 1",
    b"write 7 1 50",
    b"add 7 1 -20",
    b"add 7 1 +20",
    b"complete 7",
    b"permit 7 8 rw 3,1,2",
    b"delegate 7 8 all",
    b"depend ad 7 8",
    b"commit 7",
    b"abort 8",
    b"wait 7",
    b"",
    b"# said",
    b"wait 7\r",
    b"read 7 01",
    b"permit 7 8 wr 1",
    b"delegate 7 8 1,1",
    b"Begin 7",
    b"begin 7 ",
    b"object 3 x",
];

/// Keeps the first bytes that it is given, and counts all.
#[derive(Drop)]
struct Front {
    kept: [u8; 32],
    count: usize,
}

impl io::Write for Front {
    fn write(&mut self, buf: &[u8]) -> io::Result<usize> {
        for byte in buf {
            if self.count < 32 {
                self.kept[self.count] = *byte;
            }
            self.count = self.count.saturating_add(1);
        }
        Ok(buf.len())
    }

    fn flush(&mut self) -> io::Result<()> {
        Ok(())
    }
}

/// Draws a script of one to six lines. One line in four loses its last byte.
fn draw_script(seed: &mut u64, script: &mut Vec<u8>) -> Result<(), AllocError> {
    script.clear();
    *seed = next(*seed);
    for _ in 0..=(*seed >> 33) % 6 {
        *seed = next(*seed);
        if let Some(line) = LINES.get(((*seed >> 33) % 26) as usize) {
            script.extend_from_slice(line)?;
        }
        *seed = next(*seed);
        if (*seed >> 33) % 4 == 0 {
            let _ = script.pop();
        }
        script.push(b'\n')?;
    }
    Ok(())
}

/// Runs a script. Returns how the run ends.
fn end_of_run(alloc: Global, script: &[u8]) -> Result<RunEnd, ScriptFault> {
    let mut input = Device::new(script);
    let mut output = Device::new(Front {
        kept: [0; 32],
        count: 0,
    });
    run_script(alloc, &mut input, &mut output, 10_000)
}

/// Checks a script. Returns how the check ends, and whether its text begins as that end says.
fn end_of_check(alloc: Global, script: &[u8]) -> Result<(RunEnd, bool), ScriptFault> {
    let mut front = Front {
        kept: [0; 32],
        count: 0,
    };
    let mut input = Device::new(script);
    let mut output = Device::new(&mut front);
    let end = check_script(alloc, &mut input, &mut output)?;
    drop(output);
    let wanted = match end {
        RunEnd::BadLine(number) => format!(in alloc; "line {number}: ")?,
        _ => String::new(alloc),
    };
    let begins = front.kept.starts_with(wanted.as_bytes());
    Ok((
        end,
        begins && (front.count == 0) == (end == RunEnd::Finished),
    ))
}

/// Returns whether a check of a script ends as its run does, and says so.
fn ends_alike(alloc: Global, script: &[u8]) -> bool {
    match (end_of_run(alloc, script), end_of_check(alloc, script)) {
        (Ok(run), Ok((check, says))) => run == check && says,
        _ => false,
    }
}

/// Returns whether this is so of all drawn scripts.
fn all_end_alike(alloc: Global, script: &mut Vec<u8>) -> Result<bool, AllocError> {
    let mut seed = 5;
    for _ in 0..SCRIPTS {
        draw_script(&mut seed, script)?;
        if !ends_alike(alloc, script) {
            return Ok(false);
        }
    }
    Ok(true)
}

#[test]
fn drawn_scripts_end_as_their_runs(rt: HostRuntime) {
    let mut script = Vec::new(rt.alloc());
    let alike = all_end_alike(rt.alloc(), &mut script);
    assert!(rt; alike == Ok(true));
}
