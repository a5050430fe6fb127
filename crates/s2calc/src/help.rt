//! What `--help` shows besides the options and the commands of a script, whose help is in `s2script`.

/// What the program is.
pub(crate) const ABOUT: &str =
    "A calculator of unions of S2 cells, in which every answer to a script is proved.";

/// What follows the help of the program.
pub(crate) const AFTER: &str =
    "Exit status: 0 if all went well, 1 if a line was refused, 2 if the usage was wrong or a stream failed,
3 if memory ran out at the start.

Example:
  $ printf 'add a 04 0c 14 1c\\nshow a\\n' | s2calc run
  ok 0 1
  1
  end

More: 's2calc run --help', and docs/SCRIPT.md.";

/// What follows the help of the command `draw`.
pub(crate) const PICTURE: &str =
    "The picture is an SVG image of the six faces, with each cell as its square:
  $ s2calc draw parks > parks.svg
  $ s2calc draw land lakes > world.svg
  $ s2calc draw --fit parks > near.svg
  $ s2calc draw --curve --cells 0/0 0/1 0/2 0/3 > curve.svg

One file or cells are colored by level. Of several files each has a color of its own and is drawn over those before it.
A cell deeper than level 9 is too small to be seen, and is drawn as the cell of level 9 that contains it. With --fit
the picture shows only where the files' cells lie, by file, and the deepest level is that of which fewer than 2048 cells
lie along its longer side.";
