//! The directions of places in degrees.
ghost use Rattle.std.specs.Prelude.{◌≡◌};
ghost use Rattle.s2degrees.specs.Directions.{IsDirectionAt, IsOnMap};
ghost use Rattle.s2union_c.specs.Polygons.{point_of};
ghost use Rattle.s2union_c.specs.Status.{bad_argument, made};

use crate::polygons::Direction;
use crate::status::{BAD_ARGUMENT, MADE};

/// The direction of a place, whose longitude is from -540 to 540 degrees and whose latitude is from -90 to 90. Each
/// coordinate is at most 0.501 away from 2^31 - 1 times what sine and cosine say.
#[unsafe(no_mangle)]
pub extern "C" fn s2u_direction_of(longitude: f64, latitude: f64, direction: &mut Direction) -> i32
    ensures made { IsOnMap longitude latitude
        → (result ≡ made) × IsDirectionAt longitude latitude (point_of direction.new) }
    ensures argument { (IsOnMap longitude latitude → ⊥) → (result ≡ bad_argument) × (direction.new ≡ direction.old) }
{
    let Ok(found) = s2degrees::direction_at(longitude, latitude) else {
        return BAD_ARGUMENT;
    };
    *direction = Direction {
        x: found.x(),
        y: found.y(),
        z: found.z(),
    };
    MADE
}
