//! The text that all pictures have.

ghost use Rattle.std.specs.Prelude.{◌≡◌, ◌++◌, OnOk, string_bytes};
ghost use Rattle.asset_picture.specs.Shapes.{light_text, dark_text, heads_text, style_text, legend_text};

use std::alloc::AllocError;

const LIGHT: &str = "\
<style>
.page{fill:#ffffff}.even{fill:#f3f5f8}.odd{fill:#e8ecf1}
text{font:11px ui-monospace,Menlo,Consolas,'DejaVu Sans Mono',monospace;fill:#1f2328;text-anchor:middle}
.name{font-size:13px;font-weight:bold;text-anchor:end}.note,.step{font-size:10px;fill:#59636e}
.note,.key,.row{text-anchor:start}.object{font-weight:bold}
.lane{fill:none;stroke-width:5;stroke:#818b98}
.committed .lane{stroke:#2da44e}.aborted .lane{stroke:#e5534b}.live .lane{stroke:#539bf5}
.read circle{fill:#ffffff;stroke:#1f2328;stroke-width:2}.write rect{fill:#1f2328}.add path{fill:none;stroke:#1f2328;stroke-width:3}
.arrow{fill:none;stroke-width:1.5}.source{stroke:#818b98;stroke-width:1;stroke-opacity:.7;marker-end:url(#s)}
.permit,.open{stroke:#8250df}.permit{marker-end:url(#p)}.delegate{stroke:#bc4c00;stroke-width:2.5;marker-end:url(#d)}
.cd,.ad,.gc{stroke:#0e8a93;marker-end:url(#t)}.cd{stroke-dasharray:4 3}.gc{marker-start:url(#u)}
.dead{opacity:.5}
";

const DARK: &str = "\
@media (prefers-color-scheme:dark){
.page{fill:#0d1117}.even{fill:#171d26}.odd{fill:#1f2733}text{fill:#e6edf3}.note,.step{fill:#9198a1}
.read circle{fill:#0d1117;stroke:#e6edf3}.write rect{fill:#e6edf3}.add path{stroke:#e6edf3}.permit,.open{stroke:#a475f9}
}
</style>
";

const HEADS: &str = "\
<defs>
<marker id='s' markerWidth='7' markerHeight='7' refX='11' refY='3.5' orient='auto' markerUnits='userSpaceOnUse'><path d='M0 0 7 3.5 0 7z' fill='#818b98'/></marker>
<marker id='p' markerWidth='9' markerHeight='9' refX='9' refY='4.5' orient='auto' markerUnits='userSpaceOnUse'><path d='M0 0 9 4.5 0 9z' fill='#8250df'/></marker>
<marker id='d' markerWidth='9' markerHeight='9' refX='9' refY='4.5' orient='auto' markerUnits='userSpaceOnUse'><path d='M0 0 9 4.5 0 9z' fill='#bc4c00'/></marker>
<marker id='t' markerWidth='9' markerHeight='9' refX='9' refY='4.5' orient='auto' markerUnits='userSpaceOnUse'><path d='M0 0 9 4.5 0 9z' fill='#0e8a93'/></marker>
<marker id='u' markerWidth='9' markerHeight='9' refX='0' refY='4.5' orient='auto' markerUnits='userSpaceOnUse'><path d='M9 0 0 4.5 9 9z' fill='#0e8a93'/></marker>
</defs>
<rect class='page' width='100%' height='100%'/>
";

const LEGEND: &str = "\
<g class='committed'><path class='lane' d='M20 22H50'/></g><text class='key' x='56' y='26'>committed</text>
<g class='aborted'><path class='lane' d='M140 22H170'/></g><text class='key' x='176' y='26'>aborted</text>
<g class='live'><path class='lane' d='M250 22H280'/></g><text class='key' x='286' y='26'>live</text>
<g class='read' transform='translate(345 22)'><circle r='5'/></g><text class='key' x='356' y='26'>read</text>
<g class='write' transform='translate(415 22)'><rect x='-5' y='-5' width='10' height='10'/></g><text class='key' x='426' y='26'>write</text>
<g class='add' transform='translate(475 22)'><path d='M-6 0H6M0-6V6'/></g><text class='key' x='486' y='26'>add</text>
<text class='note' x='522' y='26'>below a mark: object, value; pale: dead group</text>
<path class='arrow source' d='M20 44H50'/><text class='key' x='56' y='48'>read to its source</text>
<path class='arrow permit' d='M200 44H230'/><text class='key' x='236' y='48'>permit</text>
<path class='arrow delegate' d='M300 44H330'/><text class='key' x='336' y='48'>delegate</text>
<path class='arrow cd' d='M415 44H445'/><text class='key' x='451' y='48'>depend cd</text>
<path class='arrow ad' d='M530 44H560'/><text class='key' x='566' y='48'>ad</text>
<path class='arrow gc' d='M600 44H630'/><text class='key' x='636' y='48'>gc</text>
<path class='arrow open' d='M684 44m-8 0a8 8 0 1 0 16 0a8 8 0 1 0-16 0'/><text class='key' x='698' y='48'>open permit</text>
";

/// Appends the colours on a light screen.
#[tactic(auto, unfolding(crate::specs::Shapes::light_text))]
fn push_light(text: &mut String) -> Result<(), AllocError>
    ensures { OnOk result (string_bytes text.new ≡ string_bytes text.old ++ light_text) }
{
    text.push_str(LIGHT)
}

/// Appends those on a dark screen.
#[tactic(auto, unfolding(crate::specs::Shapes::dark_text))]
fn push_dark(text: &mut String) -> Result<(), AllocError>
    ensures { OnOk result (string_bytes text.new ≡ string_bytes text.old ++ dark_text) }
{
    text.push_str(DARK)
}

/// Appends the heads of arrows, and the page.
#[tactic(auto, unfolding(crate::specs::Shapes::heads_text))]
fn push_heads(text: &mut String) -> Result<(), AllocError>
    ensures { OnOk result (string_bytes text.new ≡ string_bytes text.old ++ heads_text) }
{
    text.push_str(HEADS)
}

/// Appends the colours, the heads of arrows and the page.
#[tactic(auto, unfolding(crate::specs::Shapes::style_text))]
pub(crate) fn push_style(text: &mut String) -> Result<(), AllocError>
    ensures { OnOk result (string_bytes text.new ≡ string_bytes text.old ++ style_text) }
{
    push_light(text)?;
    push_dark(text)?;
    push_heads(text)
}

/// Appends what the shapes and colours mean.
#[tactic(auto, unfolding(crate::specs::Shapes::legend_text))]
pub(crate) fn push_legend(text: &mut String) -> Result<(), AllocError>
    ensures { OnOk result (string_bytes text.new ≡ string_bytes text.old ++ legend_text) }
{
    text.push_str(LEGEND)
}
