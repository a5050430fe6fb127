//! Why a place has no direction, and a number no femtodegrees.
use thiserror::Error;

/// Why a place has no direction.
#[derive(Clone, Copy, Debug, PartialEq, Eq, Drop, Error)]
pub enum DegreesFault {
    /// The longitude is a double that is not from -540 to 540.
    #[error("a longitude is from -540 to 540 degrees")]
    Longitude,
    /// The latitude is beyond 90 degrees north or south.
    #[error("a latitude is from -90 to 90 degrees")]
    Latitude,
}

/// Why a number of degrees has no femtodegrees.
#[derive(Clone, Copy, Debug, PartialEq, Eq, Drop, Error)]
pub enum NumberFault {
    /// The double is infinite or not a number.
    #[error("a number of degrees is finite")]
    NotFinite,
    /// The femtodegrees are 2^63 or more, or as many below 0.
    #[error("a number of degrees is from -9223 to 9223")]
    TooFar,
}

/// Why a text has no femtodegrees.
#[derive(Clone, Copy, Debug, PartialEq, Eq, Drop, Error)]
pub enum TextFault {
    /// The text is no decimal number.
    #[error("a number of degrees is a decimal number")]
    NotDecimal,
    /// The femtodegrees are 2^63 or more, or as many below 0.
    #[error("a number of degrees is from -9223 to 9223")]
    TooFar,
}
