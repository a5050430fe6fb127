//! Places, edges and boxes of the map.

/// A place of the map, in whole femtodegrees, of which a degree has 10^15.
#[derive(Clone, Copy, Debug, PartialEq, Eq)]
pub struct Place {
    /// How far east it is: from -540 to 540 degrees. Places that are a turn of 360 degrees apart are one place of the
    /// sphere.
    pub longitude: i64,
    /// How far north it is: from -90 to 90 degrees.
    pub latitude: i64,
}

/// An edge, straight on the map.
#[derive(Clone, Copy, Debug, PartialEq, Eq)]
pub struct MapEdge {
    /// Where it begins.
    pub a: Place,
    /// Where it ends.
    pub b: Place,
}

/// A box of the map: the places from its west to its east and from its south to its north, borders included.
#[derive(Clone, Copy, Debug, PartialEq, Eq)]
pub struct MapBox {
    /// The least longitude.
    pub west: i64,
    /// The greatest longitude.
    pub east: i64,
    /// The least latitude.
    pub south: i64,
    /// The greatest latitude.
    pub north: i64,
}
