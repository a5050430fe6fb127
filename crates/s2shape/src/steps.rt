//! The steps of reading a shape: a position, the end of a ring, the end of a part, a fault.
ghost use Rattle.std.specs.Prelude.{◌≡◌, ◌&&◌, OnOk};
ghost use Rattle.s2shape.specs.Numbers.{is_nan, is_same, size_of};
ghost use Rattle.s2shape.specs.Reading.{Gives, checked, closed_ring, fault_at, is_closed, ranged, with_part, with_ring};
ghost use Rattle.s2shape.specs.Working.Seen.{seen};

use crate::fault::{Fault, FaultName, ShapeError};
use crate::reading::Reading;
use crate::shape::{Kind, Part, Position};
use std::alloc::AllocError;

/// A fault before the bytes that are left.
pub(crate) fn fault(reading: &Reading, name: FaultName, left: &[u8]) -> ShapeError
    ensures { result ≡ ShapeError.Fault (fault_at name (seen reading.now, left.now)) }
{
    ShapeError::Fault(Fault {
        name,
        byte: reading.size.saturating_sub(left.len()),
        part: reading.parts.len(),
        ring: reading.rings.len(),
        position: reading.positions.len().saturating_sub(reading.begun),
    })
}

/// The bits of a double without its sign.
fn size_of_bits(bits: u64) -> u64
    ensures { result ≡ size_of bits }
{
    bits % (1 << 63)
}

/// The bits of an infinite double.
const INFINITE: u64 = 0x7ff0_0000_0000_0000;

/// The bits of 540.
const MOST_LONGITUDE: u64 = 0x4080_e000_0000_0000;

/// The bits of 90.
const MOST_LATITUDE: u64 = 0x4056_8000_0000_0000;

/// Whether both coordinates are not a number, as those of a point without a position are.
pub(crate) fn is_none(position: Position) -> bool
    ensures { result ≡ (is_nan position.longitude && is_nan position.latitude) }
{
    size_of_bits(position.longitude) > INFINITE && size_of_bits(position.latitude) > INFINITE
}

/// Adds a position, whose coordinates have to be finite and in range.
pub(crate) fn put_position(
    reading: &mut Reading,
    position: Position,
    left: &[u8],
) -> Result<(), ShapeError>
    ensures { Gives (λ _. seen reading.new) result (checked position (seen reading.old, left.now)) }
{
    let longitude = size_of_bits(position.longitude);
    let latitude = size_of_bits(position.latitude);
    if longitude >= INFINITE || latitude >= INFINITE {
        return Err(fault(reading, FaultName::NotFinite, left));
    }
    put_ranged(reading, position, left)
}

/// Adds a position, whose coordinates have to be in range.
pub(crate) fn put_ranged(
    reading: &mut Reading,
    position: Position,
    left: &[u8],
) -> Result<(), ShapeError>
    ensures { Gives (λ _. seen reading.new) result (ranged position (seen reading.old, left.now)) }
{
    if size_of_bits(position.longitude) > MOST_LONGITUDE
        || size_of_bits(position.latitude) > MOST_LATITUDE
    {
        return Err(fault(reading, FaultName::Range, left));
    }
    reading.positions.push(position)?;
    Ok(())
}

/// Ends a ring or a line, if it has positions.
pub(crate) fn end_ring(reading: &mut Reading) -> Result<(), AllocError>
    ensures { OnOk result (seen reading.new ≡ with_ring (seen reading.old)) }
{
    let end = reading.positions.len();
    if end != reading.begun {
        reading.rings.push(end)?;
        reading.begun = end;
    }
    Ok(())
}

/// Ends a point, a line or a polygon.
pub(crate) fn end_part(reading: &mut Reading, kind: Kind) -> Result<(), AllocError>
    ensures { OnOk result (seen reading.new ≡ with_part kind (seen reading.old)) }
{
    let end = reading.rings.len();
    reading.parts.push(Part { kind, end })?;
    Ok(())
}

/// Whether two doubles are the same number, neither of which is NaN.
fn same_number(a: u64, b: u64) -> bool
    ensures { result ≡ is_same a b }
{
    a == b || (size_of_bits(a) == 0 && size_of_bits(b) == 0)
}

/// Whether the last position of a ring is its first.
pub(crate) fn is_closed_ring(ring: &[Position]) -> bool
    ensures { result ≡ is_closed ring.now }
{
    match (ring.first(), ring.last()) {
        (Some(first), Some(last)) => {
            same_number(first.longitude, last.longitude)
                && same_number(first.latitude, last.latitude)
        }
        _ => true,
    }
}

/// Ends a ring of a polygon, if it has positions: four or more, of which the last is the first.
pub(crate) fn end_closed_ring(reading: &mut Reading, left: &[u8]) -> Result<(), ShapeError>
    ensures { Gives (λ _. seen reading.new) result (closed_ring (seen reading.old, left.now)) }
{
    let ring = &reading.positions[reading.begun..];
    let (len, is_closed) = (ring.len(), is_closed_ring(ring));
    if 0 < len && len < 4 {
        return Err(fault(reading, FaultName::Few, left));
    }
    if !is_closed {
        return Err(fault(reading, FaultName::Open, left));
    }
    end_ring(reading)?;
    Ok(())
}
