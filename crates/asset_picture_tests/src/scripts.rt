//! Pictures of what scripts leave.
use asset_cli::picture_script;
use asset_scripts::{Device, RunEnd, ScriptFault};
use std::alloc::Global;
use std::test::Fail;

/// Draws the picture of a script, and adds it to these bytes.
fn draw_once(alloc: Global, script: &[u8], written: &mut Vec<u8>) -> Result<RunEnd, ScriptFault> {
    let mut input = Device::new(script);
    let mut output = Device::new(written);
    picture_script(alloc, &mut input, &mut output, 10_000)
}

/// Draws the picture of a script into these bytes. If memory runs out once, it is drawn again.
fn draw(alloc: Global, script: &[u8], written: &mut Vec<u8>) -> Result<RunEnd, ScriptFault> {
    match draw_once(alloc, script, written) {
        Err(ScriptFault::NoMemory) => {
            written.clear();
            draw_once(alloc, script, written)
        }
        ended => ended,
    }
}

/// A transaction that reads, writes and commits.
const ONE_TRANSACTION: &[u8] =
    b"object 1 100\ninitiate 7\nbegin 7\nread 7 1\nwrite 7 1 50\nread 7 1\ncomplete 7\ncommit 7\n";

/// Its lane, its reads and its write in the columns of its entries 2 to 4, and the bow from the later read to the write.
const SHAPES: [&str; 5] = [
    "<g class='committed' transform='translate(0 108)'>",
    "<path class='arrow source' d='M422 108 ",
    "<g class='read' transform='translate(326 108)'>",
    "<g class='write' transform='translate(374 108)'>",
    "<g class='read' transform='translate(422 108)'>",
];

#[test]
fn picture_of_a_script_has_its_lanes(rt: HostRuntime) -> Result<(), Fail> {
    let mut written = Vec::new(rt.alloc());
    let ended = draw(rt.alloc(), ONE_TRANSACTION, &mut written);
    assert_eq!(rt; ended, Ok(RunEnd::Finished));
    let picture = str::from_utf8(&written)?;
    for shape in SHAPES {
        assert_eq!(rt; picture.matches(shape).count(), 1, "at {shape}");
    }
    Ok(())
}

#[test]
fn bad_line_has_no_picture(rt: HostRuntime) -> Result<(), Fail> {
    let mut written = Vec::new(rt.alloc());
    let ended = draw(rt.alloc(), b"initiate 7\nbegin\n", &mut written);
    assert_eq!(rt; ended, Ok(RunEnd::BadLine(2)));
    assert_eq!(rt; str::from_utf8(&written)?, "line 2: bad command\n");
    Ok(())
}
