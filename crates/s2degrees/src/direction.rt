//! The direction of a place.
ghost use Rattle.std.specs.Prelude.{◌≡◌, IfErr, IfOk};
ghost use Rattle.s2degrees.specs.Directions.{IsBeyondPole, IsDirectionAt, IsDirectionOf, IsOnMap, PlaceFaultIs};
ghost use Rattle.s2degrees.specs.declared.fault.DegreesFault.TheVariants.{Latitude};
ghost use Rattle.s2polygon.specs.Directions.{IsDirection};

use crate::angle::{QUARTER, sides_of};
use crate::double::femtodegrees_within;
use crate::fault::DegreesFault;
use crate::signed::{on_grid, times};
use s2polygon::Direction;

/// The greatest longitude that a double may have: three half turns.
const MOST_LONGITUDE: u64 = 540_000_000_000_000_000;

/// The direction of a place, whose longitude and latitude are whole numbers of femtodegrees. Each coordinate is at most
/// 0.501 away from 2^31 - 1 times what sine and cosine say, so the direction is at most 3 mm off on the earth. A
/// longitude may have any number of turns. `Latitude` if the latitude is beyond a pole.
///
/// The same place has the same direction on each machine, whatever its sine. S2: `S2LatLng::ToPoint`, in floating
/// point.
pub fn direction_of(longitude: i64, latitude: i64) -> Result<Direction, DegreesFault>
    ensures near { IfOk result (λ d. IsDirectionOf longitude latitude d) }
    ensures direction { IfOk result (λ d. IsDirection d) }
    ensures within { IfOk result (λ _. ¬ (IsBeyondPole latitude)) }
    ensures fault { IfErr result (λ fault. (fault ≡ Latitude) × IsBeyondPole latitude) }
{
    if latitude.unsigned_abs() > QUARTER {
        return Err(DegreesFault::Latitude);
    }
    let east = sides_of(longitude);
    let north = sides_of(latitude);
    let x = on_grid(times(east.cosine, north.cosine));
    let y = on_grid(times(east.sine, north.cosine));
    let z = on_grid(north.sine);
    match Direction::new(x, y, z) {
        Ok(direction) => Ok(direction),
        Err(_) => unreachable!(),
    }
}

/// The direction of a place, whose longitude and latitude are degrees. Both are rounded to whole femtodegrees, a tenth
/// of a nanometer on the earth, and the rest is as for `direction_of`. `Longitude` if the longitude is not from -540 to
/// 540, `Latitude` if it is and the latitude is not from -90 to 90; NaN is not.
pub fn direction_at(longitude: f64, latitude: f64) -> Result<Direction, DegreesFault>
    ensures near { IfOk result (λ d. IsDirectionAt longitude latitude d) }
    ensures direction { IfOk result (λ d. IsDirection d) }
    ensures within { IfOk result (λ _. IsOnMap longitude latitude) }
    ensures fault { IfErr result (λ fault. PlaceFaultIs longitude latitude fault) }
    ensures outside { IfErr result (λ _. ¬ (IsOnMap longitude latitude)) }
{
    let Some(east) = femtodegrees_within(longitude, MOST_LONGITUDE) else {
        return Err(DegreesFault::Longitude);
    };
    let Some(north) = femtodegrees_within(latitude, QUARTER) else {
        return Err(DegreesFault::Latitude);
    };
    direction_of(east, north)
}
