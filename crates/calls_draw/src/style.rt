//! The style of a picture.

/// The beginning of a picture, up to its width.
pub(crate) const OPENING: &[u8] = b"<svg xmlns='http://www.w3.org/2000/svg'";

/// The style sheet. The colours are those of M. Okabe and K. Ito, which people who don't see all
/// colours can tell apart; each bar has its word, so that black and white will do.
pub(crate) const STYLE: &[u8] = b"<style>
text { font-family: 'DejaVu Sans Mono', monospace; font-size: 10px; fill: #1f2933; }
.paper { fill: #ffffff; }
.name { font-size: 12px; font-weight: bold; text-anchor: end; }
.scale { font-size: 9px; text-anchor: end; fill: #52606d; }
.event { text-anchor: middle; }
.line { font-size: 8px; text-anchor: middle; fill: #52606d; }
.end { text-anchor: end; }
.reply { text-anchor: end; font-weight: bold; }
.middle { text-anchor: middle; font-weight: bold; }
.small { font-size: 9px; fill: #52606d; }
.long { font-size: 8px; }
.tiny { font-size: 5.5px; }
.grid { stroke: #e1e5ea; }
.zero { stroke: #9aa5b1; }
.bar { fill-opacity: 0.35; stroke-width: 1.5; }
.open { stroke-dasharray: 5 3; }
.advance { fill: #009e73; stroke: #009e73; }
.read { fill: #0072b2; stroke: #0072b2; }
.await { fill: #cc79a7; stroke: #cc79a7; }
.ticket { fill: #e69f00; stroke: #e69f00; }
.p { fill: #56b4e9; stroke: #56b4e9; }
.v { fill: #d55e00; stroke: #d55e00; }
.put, .produce { fill: #d55e00; stroke: #d55e00; }
.get, .consume { fill: #56b4e9; stroke: #56b4e9; }
.mark { fill: #ffffff; stroke: #1f2933; stroke-width: 2; }
.band { fill: #009e73; fill-opacity: 0.20; }
.curve { fill: none; stroke: #009e73; stroke-width: 2.5; }
.seen { fill: #ffffff; stroke: #1f2933; stroke-width: 1.5; }
.waits { fill: none; stroke: #cc79a7; stroke-width: 2.5; stroke-dasharray: 6 4; }
.level { stroke: #e69f00; stroke-width: 5; stroke-opacity: 0.55; }
.block { fill: #7b8794; fill-opacity: 0.16; stroke: #7b8794; }
.given { fill: none; stroke: #009e73; stroke-width: 2.5; stroke-dasharray: 8 3; }
.wrong { fill: #c1121f; fill-opacity: 0.12; }
.hot { fill: none; stroke: #c1121f; stroke-width: 4; rx: 6px; }
.warm { fill: none; stroke: #1f2933; stroke-width: 2; rx: 6px; }
.stair { fill: none; stroke: #c1121f; stroke-width: 3; }
.said { stroke: #c1121f; stroke-width: 4; }
.tie { stroke: #c1121f; stroke-dasharray: 2 3; stroke-width: 1.5; }
.fault { font-size: 12px; font-weight: bold; fill: #c1121f; }
.why { font-size: 11px; fill: #c1121f; font-weight: bold; }
.remark { font-size: 12px; }
@media (prefers-color-scheme: dark) {
text { fill: #e4e7eb; }
.paper, .mark, .seen { fill: #14191f; }
.mark, .seen, .warm { stroke: #e4e7eb; }
.scale, .line, .small { fill: #9aa5b1; }
.grid { stroke: #2b3640; }
.zero { stroke: #616e7c; }
.wrong { fill: #ff8a80; }
.hot, .stair, .said, .tie { stroke: #ff8a80; }
.fault, .why { fill: #ff8a80; }
}
</style>
<path class='paper' d='M 0 0 H 100000 V 100000 H 0 z'/>
";
