//! The head of a geometry in WKB.
ghost use Rattle.std.specs.Prelude.{◌≡◌, ◌≤◌, IfOk, length};
ghost use Rattle.s2shape.specs.Head.{form_of, kind_of, layout_of};
ghost use Rattle.s2shape.specs.Numbers.{number};

use crate::fault::FaultName;
use crate::shape::Kind;
use byteorder::{BigEndian, ByteOrder, LittleEndian};

/// The order of the bytes of a number.
#[derive(Clone, Copy, Drop)]
pub enum Endian {
    /// The highest first.
    Big,
    /// The lowest first.
    Little,
}

/// A geometry, or a list of geometries.
#[derive(Clone, Copy, Drop)]
pub enum Form {
    /// A point, a line or a polygon.
    One(Kind),
    /// A list of such, or of any geometries.
    Many(Option<Kind>),
}

/// How a geometry of a type is laid out.
#[derive(Clone, Copy, Drop)]
pub struct Layout {
    /// The geometry.
    pub form: Form,
    /// How many bytes a position has.
    pub stride: usize,
    /// Whether an SRID follows.
    pub has_srid: bool,
}

/// The head of a geometry.
#[derive(Clone, Copy, Drop)]
pub struct Head {
    /// The order of the bytes of its numbers.
    pub endian: Endian,
    /// The geometry.
    pub form: Form,
    /// How many bytes a position has.
    pub stride: usize,
}

/// The number in the first four bytes.
pub(crate) fn number_of_4(endian: Endian, bytes: &[u8]) -> u32
    requires { 4 ≤ length bytes.now }
    ensures { result ≡ number endian 4 bytes.now }
{
    match endian {
        Endian::Big => BigEndian::read_u32(bytes),
        Endian::Little => LittleEndian::read_u32(bytes),
    }
}

/// The number in the first eight bytes.
pub(crate) fn number_of_8(endian: Endian, bytes: &[u8]) -> u64
    requires { 8 ≤ length bytes.now }
    ensures { result ≡ number endian 8 bytes.now }
{
    match endian {
        Endian::Big => BigEndian::read_u64(bytes),
        Endian::Little => LittleEndian::read_u64(bytes),
    }
}

/// A point, a line or a polygon, by the numbers 1, 2 and 3.
fn kind_of_number(number: u32) -> Kind
    ensures { result ≡ kind_of number }
{
    match number {
        1 => Kind::Point,
        2 => Kind::Line,
        _ => Kind::Polygon,
    }
}

/// The geometry of a number of OGC's.
fn form_of_number(number: u32) -> Result<Form, FaultName>
    ensures { result ≡ form_of number }
{
    match number {
        1..=3 => Ok(Form::One(kind_of_number(number))),
        4..=6 => Ok(Form::Many(Some(kind_of_number(number - 3)))),
        7 => Ok(Form::Many(None)),
        8..=17 => Err(FaultName::Uncovered),
        _ => Err(FaultName::Type),
    }
}

/// How a geometry of this type is laid out. A type is one of the OGC, with thousands for Z and M as ISO has them, and
/// with the flags of EWKB.
#[tactic(auto, unfolding(crate::specs::Head::layout_of))]
pub(crate) fn layout_of_type(word: u32) -> Result<Layout, FaultName>
    ensures layout { result ≡ layout_of word }
    ensures low { IfOk result (λ layout. 16 ≤ layout.stride) }
    ensures high { IfOk result (λ layout. layout.stride ≤ 32) }
{
    let flags = word / 0x1000_0000;
    let thousands = word % 0x1000_0000 / 1000;
    if flags % 2 == 1 || thousands > 3 {
        return Err(FaultName::Type);
    }
    let form = form_of_number(word % 0x1000_0000 % 1000)?;
    let mut stride = 16;
    if flags / 8 % 2 == 1 || thousands == 1 || thousands == 3 {
        stride += 8;
    }
    if flags / 4 % 2 == 1 || thousands == 2 || thousands == 3 {
        stride += 8;
    }
    Ok(Layout {
        form,
        stride,
        has_srid: flags / 2 % 2 == 1,
    })
}
