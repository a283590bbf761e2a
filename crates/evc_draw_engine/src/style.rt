//! The texts of a picture that are always the same.

/// The beginning of a picture, up to its width.
pub(crate) const OPENING: &str = "<svg xmlns='http://www.w3.org/2000/svg'";

/// The style sheet. The colours are those of M. Okabe and K. Ito, which people who don't see all
/// colours can tell apart. A pending call is dashed too, and each bar has its word. Words that an
/// arrow may cross have an outline.
pub(crate) const STYLE: &str = "<style>
text { font-family: 'DejaVu Sans Mono', monospace; font-size: 10px; fill: #1f2933; }
.paper { fill: #ffffff; }
.name { font-size: 12px; font-weight: bold; text-anchor: end; }
.count { text-anchor: end; }
.entry { text-anchor: middle; }
.reply { text-anchor: end; font-weight: bold; }
.component { font-size: 9px; }
.cell { font-size: 6.4px; }
.put .act, .get .reply, .cell { stroke: #ffffff; stroke-width: 2.4; paint-order: stroke; }
.long { font-size: 8px; }
.tiny { font-size: 5.5px; }
.grid { stroke: #d5dae0; }
.zero { stroke: #7b8794; }
.round { stroke: #1f2933; stroke-dasharray: 2 2; }
.tie { stroke: #1f2933; stroke-dasharray: 1 3; stroke-width: 1.4; }
.mark { fill: #ffffff; stroke: #1f2933; stroke-width: 2; }
.curve { fill: none; stroke: #009e73; stroke-width: 2; }
.balance { fill: none; stroke: #d55e00; stroke-width: 3; stroke-dasharray: 8 2; }
circle { fill: #1f2933; }
rect { fill-opacity: 0.35; stroke-width: 1.5; }
.advance rect { fill: #009e73; stroke: #009e73; }
.read rect { fill: #0072b2; stroke: #0072b2; }
.await rect { fill: #cc79a7; stroke: #cc79a7; }
.ticket rect { fill: #e69f00; stroke: #e69f00; }
.put rect { fill: #d55e00; stroke: #d55e00; }
.get rect { fill: #56b4e9; stroke: #56b4e9; }
.hand rect { fill: #f0e442; stroke: #f0e442; }
.open rect { stroke-dasharray: 5 3; }
.version rect { fill: #7b8794; fill-opacity: 0.22; }
.arrow { fill: none; stroke: #1f2933; stroke-width: 1.5; marker-end: url(#tip); }
.tip { fill: #1f2933; }
.wrong { stroke: #c1121f; stroke-width: 84; stroke-opacity: 0.2; }
.fault { font-size: 12px; fill: #c1121f; }
.struck { fill: #c1121f; text-decoration: line-through; }
@media (prefers-color-scheme: dark) {
text, circle, .tip { fill: #e4e7eb; }
.paper, .mark { fill: #14191f; }
.put .act, .get .reply, .cell { stroke: #14191f; }
.grid { stroke: #323f4b; }
.round, .tie, .mark, .arrow { stroke: #e4e7eb; }
.wrong { stroke: #ff8a80; }
.fault, .struck { fill: #ff8a80; }
}
</style>
<marker id='tip' markerUnits='userSpaceOnUse' markerWidth='10' markerHeight='10' refX='9' refY='4' \
orient='auto'><path class='tip' d='M 0 0 L 9 4 L 0 8 z'/></marker>
<path class='paper' d='M 0 0 H 100000 V 100000 H 0 z'/>
";
