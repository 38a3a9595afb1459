//! Pictures of worked histories.
use crate::drawing::{left_by, parts, picture_of};
use std::alloc::Global;
use std::test::Fail;

/// 8 reads what 7 lets it read, and aborts. Nobody commits.
const PERMITTED: &str = "\
    initiate 7: ok\nbegin 7: ok\nwrite 7 1 50: ok\ninitiate 8: ok\nbegin 8: ok\npermit 7 8 r 1: ok\n\
    read 8 1: 50\nabort 8: aborted\n";

/// A live transaction is drawn to the ninth column, and the reader to the entry that ended it.
const PERMITTED_DRAWN: &str = "\
<g class='live dead' transform='translate(0 108)'><rect class='even' y='-26' width='100%' height='56'/>\
<text class='note' x='16' y='-12'>group 0 dead</text><text class='name' x='230' dx='-12' y='5'>7</text>\
<path class='lane' d='M230 0v-7v14v-7H614'/></g>
<g class='aborted dead' transform='translate(0 164)'><rect class='even' y='-26' width='100%' height='56'/>\
<text class='note' x='16' y='-12'>group 0 dead</text><text class='name' x='374' dx='-12' y='5'>8</text>\
<path class='lane' d='M374 0v-7v14v-7H566v-7v14'/></g>
<text class='step' x='230' y='76'>0</text>
<text class='step' x='278' y='76'>1</text>
<text class='step' x='326' y='76'>2</text>
<text class='step' x='374' y='76'>3</text>
<text class='step' x='422' y='76'>4</text>
<text class='step' x='470' y='76'>5</text>
<text class='step' x='518' y='76'>6</text>
<text class='step' x='566' y='76'>7</text>
<path class='arrow permit dead' d='M470 108 V164'/>
<path class='arrow source dead' d='M518 164 C518 130 326 74 326 108'/>
<g class='write dead' transform='translate(326 108)'><rect x='-5' y='-5' width='10' height='10'/>\
<text class='object' y='17'>1</text><text y='28'>50</text></g>
<g class='read dead' transform='translate(518 164)'><circle r='5'/>\
<text class='object' y='17'>1</text><text y='28'>50</text></g>
</svg>
";

/// 8 reads what 7 lets anybody read, and aborts.
const OPENED: &str = "\
    initiate 7: ok\nbegin 7: ok\nwrite 7 1 50: ok\ninitiate 8: ok\nbegin 8: ok\npermit 7 any r 1: ok\n\
    read 8 1: 50\nabort 8: aborted\n";

/// The two are of one group, and a ring stands round the lane of 7 where it opens the object.
const OPENED_LANES: &str = "\
<g class='live dead' transform='translate(0 108)'><rect class='even' y='-26' width='100%' height='56'/>\
<text class='note' x='16' y='-12'>group 0 dead</text><text class='name' x='230' dx='-12' y='5'>7</text>\
<path class='lane' d='M230 0v-7v14v-7H614'/></g>
<g class='aborted dead' transform='translate(0 164)'><rect class='even' y='-26' width='100%' height='56'/>\
<text class='note' x='16' y='-12'>group 0 dead</text><text class='name' x='374' dx='-12' y='5'>8</text>\
<path class='lane' d='M374 0v-7v14v-7H566v-7v14'/></g>
";

const OPENED_RING: &str = "\
<text class='step' x='566' y='76'>7</text>
<path class='arrow open dead' d='M470 108 m-8 0a8 8 0 1 0 16 0a8 8 0 1 0-16 0V108'/>
<path class='arrow source dead' d='M518 164 C518 130 326 74 326 108'/>
<g class='write dead' transform='translate(326 108)'><rect x='-5' y='-5' width='10' height='10'/>\
<text class='object' y='17'>1</text><text y='28'>50</text></g>
<g class='read dead' transform='translate(518 164)'><circle r='5'/>\
<text class='object' y='17'>1</text><text y='28'>50</text></g>
</svg>
";

/// 7 hands its write over to 8, and both commit at once. 9, which nobody joins, reads an opening value; the step of 5 is
/// refused.
const HANDED: &str = "\
    initiate 7: ok\nbegin 7: ok\ninitiate 9: ok\ninitiate 8: ok\nwrite 7 2 -1: ok\ndelegate 7 8 2: ok\n\
    depend gc 8 7: ok\nbegin 9: ok\nread 9 3: 300\nbegin 8: ok\ncomplete 7: ok\ncomplete 8: ok\n\
    commit 8: committed\nbegin 5: refused unknown 5\n";

/// 8 stands beside 7, before 9, whose group is the second.
const HANDED_LANES: &str = "\
<g class='committed' transform='translate(0 108)'><rect class='even' y='-26' width='100%' height='56'/>\
<text class='note' x='16' y='-12'>group 0 committed</text><text class='name' x='230' dx='-12' y='5'>7</text>\
<path class='lane' d='M230 0v-7v14v-7H806v-7v14'/></g>
<g class='committed' transform='translate(0 164)'><rect class='even' y='-26' width='100%' height='56'/>\
<text class='note' x='16' y='-12'>group 0 committed</text><text class='name' x='374' dx='-12' y='5'>8</text>\
<path class='lane' d='M374 0v-7v14v-7H806v-7v14'/></g>
<g class='live dead' transform='translate(0 220)'><rect class='odd' y='-26' width='100%' height='56'/>\
<text class='note' x='16' y='-12'>group 1 dead</text><text class='name' x='326' dx='-12' y='5'>9</text>\
<path class='lane' d='M326 0v-7v14v-7H902'/></g>
<g class='unknown dead' transform='translate(0 276)'><rect class='even' y='-26' width='100%' height='56'/>\
<text class='note' x='16' y='-12'>group 2 dead</text><text class='name' x='230' dx='-12' y='5'>5</text></g>
<text class='step' x='230' y='76'>0</text>
";

/// The arrows and marks.
const HANDED_MARKS: &str = "\
<text class='step' x='854' y='76'>13</text>
<path class='arrow delegate' d='M470 108 V164'/>
<path class='arrow gc' d='M518 164 V108'/>
<g class='write' transform='translate(422 108)'><rect x='-5' y='-5' width='10' height='10'/>\
<text class='object' y='17'>2</text><text y='28'>-1</text></g>
<g class='read dead' transform='translate(614 220)'><circle r='5'/>\
<text class='object' y='17'>3</text><text y='28'>300</text></g>
</svg>
";

/// Dependencies of the other kinds.
const TIED: &str = "\
    initiate 7: ok\ninitiate 8: ok\ninitiate 9: ok\ndepend cd 7 9: ok\ndepend ad 8 7: ok\ndepend ad 9 8: refused cycle\n";

/// The second goes up.
const TIED_ARROWS: &str = "\
<text class='step' x='470' y='76'>5</text>
<path class='arrow cd dead' d='M374 108 V220'/>
<path class='arrow ad dead' d='M422 164 V108'/>
</svg>
";

/// A long name, and the least value.
const LONG: &str = "initiate 18446744073709551615: ok\nbegin 18446744073709551615: ok\n\
    write 18446744073709551615 1 -9223372036854775808: ok\n";

/// Its columns are wide.
const LONG_DRAWN: &str = "\
<g class='live dead' transform='translate(0 108)'><rect class='even' y='-26' width='100%' height='56'/>\
<text class='note' x='16' y='-12'>group 0 dead</text><text class='name' x='230' dx='-12' y='5'>18446744073709551615</text>\
<path class='lane' d='M230 0v-7v14v-7H698'/></g>
<text class='step' x='230' y='76'>0</text>
<text class='step' x='386' y='76'>1</text>
<text class='step' x='542' y='76'>2</text>
<g class='write dead' transform='translate(542 108)'><rect x='-5' y='-5' width='10' height='10'/>\
<text class='object' y='17'>1</text><text y='28'>-9223372036854775808</text></g>
</svg>
";

/// The first lines of pictures of so many columns and rows.
const SMALL: &str =
    "<svg xmlns='http://www.w3.org/2000/svg' version='1.1' width='806' height='220' viewBox='0 0 806 220'>";

const EMPTY: &str =
    "<svg xmlns='http://www.w3.org/2000/svg' version='1.1' width='806' height='108' viewBox='0 0 806 108'>";

const WIDE: &str =
    "<svg xmlns='http://www.w3.org/2000/svg' version='1.1' width='2102' height='164' viewBox='0 0 2102 164'>";

/// Returns the picture of what a script leaves, if each of its lines is answered as it says.
fn drawn(alloc: Global, script: &str) -> Result<Option<String>, Fail> {
    let (history, wrong) = left_by(alloc, script)?;
    let picture = picture_of(alloc, &history);
    drop(history);
    let picture = picture?;
    Ok(if wrong == None { Some(picture) } else { None })
}

/// Returns whether the picture has this first line and these shapes.
fn has_parts(picture: &Option<String>, first: &str, shapes: &str) -> bool {
    match picture {
        Some(picture) => parts(picture) == Some((first, shapes)),
        None => false,
    }
}

/// Returns whether the shapes of the picture begin and end with these.
fn has_ends(picture: &Option<String>, start: &str, end: &str) -> bool {
    match picture {
        Some(picture) => match parts(picture) {
            Some((_, shapes)) => shapes.starts_with(start) && shapes.ends_with(end),
            None => false,
        },
        None => false,
    }
}

#[test]
fn permitted_read_has_an_arrow_to_its_source(rt: HostRuntime) -> Result<(), Fail> {
    let picture = drawn(rt.alloc(), PERMITTED)?;
    assert!(rt; has_parts(&picture, SMALL, PERMITTED_DRAWN));
    Ok(())
}

#[test]
fn open_permit_is_a_ring(rt: HostRuntime) -> Result<(), Fail> {
    let picture = drawn(rt.alloc(), OPENED)?;
    assert!(rt; has_ends(&picture, OPENED_LANES, OPENED_RING));
    Ok(())
}

#[test]
fn lanes_of_a_group_stand_together(rt: HostRuntime) -> Result<(), Fail> {
    let picture = drawn(rt.alloc(), HANDED)?;
    assert!(rt; has_ends(&picture, HANDED_LANES, HANDED_MARKS));
    Ok(())
}

#[test]
fn dependencies_are_arrows(rt: HostRuntime) -> Result<(), Fail> {
    let picture = drawn(rt.alloc(), TIED)?;
    assert!(rt; has_ends(&picture, "<g class='live dead'", TIED_ARROWS));
    Ok(())
}

#[test]
fn long_numbers_have_wide_columns(rt: HostRuntime) -> Result<(), Fail> {
    let picture = drawn(rt.alloc(), LONG)?;
    assert!(rt; has_parts(&picture, WIDE, LONG_DRAWN));
    Ok(())
}

#[test]
fn empty_history_has_no_shapes(rt: HostRuntime) -> Result<(), Fail> {
    let picture = drawn(rt.alloc(), "")?;
    assert!(rt; has_parts(&picture, EMPTY, "</svg>\n"));
    Ok(())
}
