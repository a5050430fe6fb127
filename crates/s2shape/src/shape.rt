//! Shapes: positions, and the rings and lines that they make.

/// A position: the bits of two doubles, which are degrees.
#[derive(Clone, Copy, Debug, PartialEq, Eq, Drop)]
pub struct Position {
    /// The longitude, from -540 to 540.
    pub longitude: u64,
    /// The latitude, from -90 to 90.
    pub latitude: u64,
}

/// The kinds of parts of shapes.
#[derive(Clone, Copy, Debug, PartialEq, Eq, Drop)]
pub enum Kind {
    /// One position.
    Point,
    /// A line of positions, of which there may be one.
    Line,
    /// Closed rings of four positions or more each.
    Polygon,
}

/// A point, a line or a polygon.
#[derive(Clone, Copy, Debug, PartialEq, Eq, Drop)]
pub struct Part {
    /// Its kind.
    pub kind: Kind,
    /// How many rings there are up to its end. They begin where those of the part before it end.
    pub end: usize,
}

/// A shape: parts, of which each has rings, of which each has positions.
#[derive(Debug, Drop)]
pub struct Shape {
    /// The positions of the first ring, of the second, and so on.
    pub positions: Vec<Position>,
    /// How many positions there are up to the end of each ring or line. None is empty.
    pub rings: Vec<usize>,
    /// The points, lines and polygons. One without positions has no ring.
    pub parts: Vec<Part>,
}
