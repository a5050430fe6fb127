//! Edges in the frame of a face.
ghost use Rattle.std.specs.Prelude.{◌≡◌, ◌<◌};
ghost use Rattle.s2polygon.specs.Frames.{framed, in_frame as in_frame_of, normal_u_of, normal_v_of, normal_w_of};
ghost use Rattle.s2polygon.specs.Working.Sizes.{IsFramed, IsShort};

use crate::directions::{Direction, Edge};

/// Coordinates in the frame of a face: `w` along the face's axis, `u` along its rows and `v` along its columns.
#[derive(Clone, Copy)]
pub struct Framed {
    /// Along the axis.
    pub w: i64,
    /// Along the rows.
    pub u: i64,
    /// Along the columns.
    pub v: i64,
}

/// An edge in the frame of a face, with its normal.
#[derive(Clone, Copy)]
pub struct FramedEdge {
    /// Where it begins.
    pub a: Framed,
    /// Where it ends.
    pub b: Framed,
    /// The product `a` x `b`.
    pub n: Framed,
}

/// A direction in the frame of a face.
pub(crate) fn in_frame(face: u8, p: Direction) -> Framed
    requires { face < 6 }
    ensures value { result ≡ in_frame_of face p }
    ensures short { IsShort result }
{
    match face {
        0 => Framed {
            w: p.x,
            u: p.y,
            v: p.z,
        },
        1 => Framed {
            w: p.y,
            u: -p.x,
            v: p.z,
        },
        2 => Framed {
            w: p.z,
            u: -p.x,
            v: -p.y,
        },
        3 => Framed {
            w: -p.x,
            u: -p.z,
            v: -p.y,
        },
        4 => Framed {
            w: -p.y,
            u: -p.z,
            v: p.x,
        },
        _ => Framed {
            w: -p.z,
            u: p.y,
            v: p.x,
        },
    }
}

/// The first coordinate of an edge's normal.
#[tactic(none)]
fn normal_w(a: Framed, b: Framed) -> i64
    requires a { IsShort a }
    requires b { IsShort b }
    ensures { result ≡ normal_w_of a b }
{
    a.u * b.v - a.v * b.u
}

/// The second.
#[tactic(none)]
fn normal_u(a: Framed, b: Framed) -> i64
    requires a { IsShort a }
    requires b { IsShort b }
    ensures { result ≡ normal_u_of a b }
{
    a.v * b.w - a.w * b.v
}

/// The third.
#[tactic(none)]
fn normal_v(a: Framed, b: Framed) -> i64
    requires a { IsShort a }
    requires b { IsShort b }
    ensures { result ≡ normal_v_of a b }
{
    a.w * b.u - a.u * b.w
}

/// An edge in the frame of a face.
#[tactic(none)]
pub(crate) fn edge_on(face: u8, e: Edge) -> FramedEdge
    requires { face < 6 }
    ensures value { result ≡ framed face e }
    ensures framed { IsFramed result }
    ensures begin { IsShort result.a }
    ensures end { IsShort result.b }
{
    let a = in_frame(face, e.a);
    let b = in_frame(face, e.b);
    let w = normal_w(a, b);
    let u = normal_u(a, b);
    let v = normal_v(a, b);
    FramedEdge {
        a,
        b,
        n: Framed { w, u, v },
    }
}
