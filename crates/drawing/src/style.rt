//! What is the same in each picture: its colours, the plot's frame, and the words beside the axes.

/// How a picture begins.
pub const OPENING: &str =
    "<svg xmlns='http://www.w3.org/2000/svg' viewBox='0 0 10600 5800' width='1060' height='580' role='img' aria-labelledby='t' aria-describedby='d'>
<style>
text{font:140px system-ui,'Segoe UI',Helvetica,Arial,sans-serif;fill:#1b2733}
.head{font-size:210px;font-weight:600}
.soft,.marks text{fill:#51606e}
.up{text-anchor:end}
.across{text-anchor:middle}
.paper{fill:#fff}
.permitted{fill:#d3e8f5}
.not{fill:#fff}
.marks path{stroke:#1b2733;stroke-opacity:.13;stroke-width:8}
.axes{fill:none;stroke:#51606e;stroke-width:14}
.kept,.implied,.names path{fill:none;stroke-linecap:round}
.implied{stroke:#51606e}
.names path{stroke:#51606e;stroke-width:7;stroke-dasharray:14 26}
.names text{font-variant-numeric:tabular-nums}
.points{fill:#fff;stroke-width:26}
.kept,.points{stroke:#0072b2}
.kept :nth-child(5n+2),.points :nth-child(5n+2){stroke:#c04a00}
.kept :nth-child(5n+3),.points :nth-child(5n+3){stroke:#007a59}
.kept :nth-child(5n+4),.points :nth-child(5n+4){stroke:#8e3b86}
.kept :nth-child(5n+5),.points :nth-child(5n+5){stroke:#7a5c00}
@media(prefers-color-scheme:dark){
text{fill:#e6edf3}
.soft,.marks text{fill:#9fb0c0}
.paper,.not,.points{fill:#10161d}
.permitted{fill:#17384d}
.marks path{stroke:#e6edf3}
.axes,.implied,.names path{stroke:#9fb0c0}
.kept,.points{stroke:#5cb8f0}
.kept :nth-child(5n+2),.points :nth-child(5n+2){stroke:#ff9a5c}
.kept :nth-child(5n+3),.points :nth-child(5n+3){stroke:#3fcfa3}
.kept :nth-child(5n+4),.points :nth-child(5n+4){stroke:#e3a0dc}
.kept :nth-child(5n+5),.points :nth-child(5n+5){stroke:#e5c34e}
}
</style>
<rect class='paper' width='10600' height='5800'/>
<rect class='permitted' x='1000' y='900' width='5500' height='4000'/>
<title id='t'>The rates asked of media sender ";

/// What stands between the title's media sender and the description.
pub const DESCRIPTION: &str = "</title>
<desc id='d'>";

/// What stands between the description's counts and the heading's media sender.
pub const HEADING: &str =
    " are kept; together they permit what all permit. Across: packets per second. Up: bits of media per second. What is permitted is shaded, below the lines.</desc>
<text class='head' x='1000' y='420'>Asked of media sender ";

/// What stands between the heading's media sender and the counts below it.
pub const COUNTS: &str = "</text>
<text class='soft' x='1000' y='660'>";

/// What ends the heading.
pub const HEADING_END: &str = " kept</text>
";

/// The plot's frame, and what stands on its axes and at its foot.
pub const FRAME: &str = "<path class='axes' d='M1000 900V4900H6500'/>
<text class='up soft' x='930' y='4950'>0</text>
<text class='across soft' x='1000' y='5110'>0</text>
<text class='across' x='3750' y='5350'>packets per second</text>
<text class='across' x='190' y='2900' transform='rotate(-90 190 2900)'>bits of media per second</text>
<rect class='permitted' x='1000' y='5510' width='260' height='140'/>
<text class='soft' x='1340' y='5630'>permitted</text>
<path class='kept' stroke-width='30' d='M2330 5580H2590'/>
<text class='soft' x='2670' y='5630'>kept</text>
<path class='implied' stroke-width='9' d='M3330 5580H3590'/>
<text class='soft' x='3670' y='5630'>implied</text>
<g class='points'><circle cx='4620' cy='5580' r='50'/></g>
<text class='soft' x='4750' y='5630'>a pair that no other kept request forbids</text>
";

/// How what isn't permitted begins.
pub const FORBIDDEN: &str = "<g class='not'>\n";

/// How the marks on the axes begin.
pub const MARKS: &str = "<g class='marks'>\n";

/// How the lines of the implied requests begin: they are thin.
pub const IMPLIED: &str = "<g class='implied' stroke-width='9'>\n";

/// How the lines of the kept requests begin: they are strong.
pub const KEPT: &str = "<g class='kept' stroke-width='30'>\n";

/// How the pairs begin.
pub const POINTS: &str = "<g class='points'>\n";

/// How the names begin.
pub const NAMES: &str = "<g class='names'>\n";

/// How each of these ends.
pub const GROUP_END: &str = "</g>\n";

/// How a mark's number below the plot begins.
pub const ACROSS: &str = "<text class='across' y='5110' x='";

/// How a mark's number beside the plot begins.
pub const UP: &str = "<text class='up' x='930' y='";

/// What stands between a line and whose it is.
pub const WHOSE: &str = "'><title>";

/// How a line ends.
pub const LINE_END: &str = " a packet</title></path>\n";

/// What stands between a point and its pair.
pub const PAIR: &str = "r='50'><title>";

/// How a point ends.
pub const POINT_END: &str = " seconds</title></circle>\n";

/// How a name begins.
pub const NAME: &str = "<text x='6860' y='";

/// How a name ends.
pub const NAME_END: &str = "</text>\n";

/// How the picture ends.
pub const CLOSING: &str = "</svg>\n";
