//! What all pictures have in common.

/// The size of the picture of one list of cells.
pub(crate) const HEAD: &str =
    "<svg xmlns='http://www.w3.org/2000/svg' width='1072' height='824' viewBox='-96 -112 4288 3296'>
";

/// What the pictures are called, and how their parts look that all of them have.
pub(crate) const STYLE: &str = "<title>S2 cells on the six faces, unfolded</title>
<style>
text{font:64px Helvetica,Arial,sans-serif;fill:#333}
.title{font-size:112px;fill:#111}
.paper{fill:#fff}
.face{fill:#f3f4f6}
.edge{fill:none;stroke:#4b5563;stroke-width:6}
.curve{fill:none;stroke:#d9480f;stroke-width:8;stroke-linejoin:round;stroke-linecap:round}
";

/// The colors of the levels, and their legend.
pub(crate) const LEVELS: &str = ".l0,.l1,.l2,.l3,.l4,.l5,.l6,.l7{stroke:#163a5f}
.l0,.l1,.l2,.l3{stroke-width:5}
.l4,.l5{stroke-width:3}
.l6{stroke-width:2}
.l7{stroke-width:1}
.l0{fill:#f7fbc5}
.l1{fill:#e3f4b6}
.l2{fill:#c2e7b5}
.l3{fill:#92d4b9}
.l4{fill:#5fc0c0}
.l5{fill:#3aa5c3}
.l6{fill:#2a83b9}
.l7{fill:#2b5fa8}
.l8{fill:#263d91}
.l9{fill:#141f5f}
</style>
<rect class='paper' x='-96' y='-112' width='4288' height='3296'/>
<text class='title' x='0' y='64'>S2 cells by level</text>
<g id='legend'>
<rect class='l0' x='0' y='368' width='96' height='96'/><text x='30' y='536'>0</text>
<rect class='l1' x='144' y='368' width='96' height='96'/><text x='174' y='536'>1</text>
<rect class='l2' x='288' y='368' width='96' height='96'/><text x='318' y='536'>2</text>
<rect class='l3' x='432' y='368' width='96' height='96'/><text x='462' y='536'>3</text>
<rect class='l4' x='576' y='368' width='96' height='96'/><text x='606' y='536'>4</text>
<rect class='l5' x='720' y='368' width='96' height='96'/><text x='750' y='536'>5</text>
<rect class='l6' x='864' y='368' width='96' height='96'/><text x='894' y='536'>6</text>
<rect class='l7' x='1008' y='368' width='96' height='96'/><text x='1038' y='536'>7</text>
<rect class='l8' x='1152' y='368' width='96' height='96'/><text x='1182' y='536'>8</text>
<rect class='l9' x='1296' y='368' width='96' height='96'/><text x='1326' y='536'>9</text>
<text x='0' y='648'>On each face i grows to the right and j upward.</text>
</g>
";

/// The colors of the layers, and what stands beside them.
pub(crate) const COLORS: &str = "path{fill-opacity:.7}
path,text{stroke:none}
.curve{stroke:inherit}
.c0{fill:#009e73;stroke:#009e73}
.c1{fill:#0072b2;stroke:#0072b2}
.c2{fill:#e69f00;stroke:#e69f00}
.c3{fill:#d55e00;stroke:#d55e00}
.c4{fill:#cc79a7;stroke:#cc79a7}
.c5{fill:#56b4e9;stroke:#56b4e9}
.c6{fill:#f0e442;stroke:#f0e442}
.c7{fill:#6b7280;stroke:#6b7280}
</style>
<rect class='paper' x='-96' y='-112' width='100%' height='100%'/>
<text class='title' x='0' y='64'>S2 cells by file</text>
<text x='0' y='176'>On each face i grows to the right and j upward.</text>
";

/// What becomes of deeper cells.
pub(crate) const DEEPER: &str =
    "<text x='0' y='272'>Cells deeper than level 9 are drawn as cells of level 9.</text>
";

/// The faces, below the cells.
pub(crate) const FACES: &str = "<g id='faces'>
<rect class='face' x='0' y='2048' width='1024' height='1024'/><text x='0' y='2020'>face 0</text>
<rect class='face' x='1024' y='2048' width='1024' height='1024'/><text x='1024' y='3144'>face 1</text>
<rect class='face' x='1024' y='1024' width='1024' height='1024'/><text x='1024' y='996'>face 2</text>
<rect class='face' x='2048' y='1024' width='1024' height='1024'/><text x='2076' y='2120'>face 3</text>
<rect class='face' x='2048' y='0' width='1024' height='1024'/><text x='2048' y='-28'>face 4</text>
<rect class='face' x='3072' y='0' width='1024' height='1024'/><text x='3100' y='1096'>face 5</text>
</g>
";

/// What comes after the cells: the edges of the faces.
pub(crate) const FOOT: &str = "<g id='edges'>
<rect class='edge' x='0' y='2048' width='1024' height='1024'/>
<rect class='edge' x='1024' y='2048' width='1024' height='1024'/>
<rect class='edge' x='1024' y='1024' width='1024' height='1024'/>
<rect class='edge' x='2048' y='1024' width='1024' height='1024'/>
<rect class='edge' x='2048' y='0' width='1024' height='1024'/>
<rect class='edge' x='3072' y='0' width='1024' height='1024'/>
</g>
</svg>
";
