//! Shapes: which places lie inside, and how boxes lie.
ghost use Rattle.std.specs.Prelude.{◌≡◌, ◌++◌, [], ◌∷◌, All, IfErr, IfOk, OnErr, OnOk, false, true};
ghost use Rattle.s2map.specs.Boxes.{InBox, IsBox, part_of};
ghost use Rattle.s2map.specs.Few.{edge_count};
ghost use Rattle.s2map.specs.Map.{IsMapPlace, inside};
ghost use Rattle.s2map.specs.Working.Even.{IsPart};
ghost use Rattle.s2map.specs.Working.Near.{IsKnown};
ghost use Rattle.s2map.specs.declared.fault.MapFault.TheVariants.{OutOfRange, WrongBox};
ghost use Rattle.s2map.specs.declared.place.Place.{Place};

use crate::edge::is_place;
use crate::fault::MapFault;
use crate::meeting::{corner_of, is_box};
use crate::near::Known;
use crate::part::MapPart;
use crate::place::{MapBox, Place};
use std::alloc::{AllocError, Global};
use std::marker::Model;

/// How a box lies relative to a shape.
#[derive(Clone, Copy, Debug, PartialEq, Eq)]
pub enum BoxPart {
    /// No place of the box is inside the shape.
    Out,
    /// All places of the box are inside.
    In,
    /// An edge meets the box.
    Met,
}

/// A shape of the map: what lies inside one of its parts. Parts may overlap.
#[derive(Drop)]
pub struct MapShape {
    parts: Vec<MapPart>,
}

impl Model for MapShape {
    ghost use Rattle.std.specs.Prelude.{All, List};
    ghost use Rattle.s2map.specs.Working.Even.{IsPart};
    ghost use Rattle.s2map.specs.declared.place.MapEdge.{MapEdge};

    ghost Value = { List (List MapEdge) };

    ghost view = { λ s. s.parts.items };

    ghost invariant = { λ s. All IsPart s.parts.items };
}

/// Whether a place lies inside one of the parts.
fn have(parts: &[MapPart], p: Place) -> bool
    requires { IsMapPlace p }
    ensures { result ≡ inside parts.now p }
{
    for part in parts {
        if part.has(p) {
            return true;
        }
    }
    false
}

/// How a box lies relative to parts.
fn box_part(parts: &[MapPart], q: MapBox) -> BoxPart
    requires { IsBox q }
    ensures { result ≡ part_of parts.now q }
{
    let corner = corner_of(q);
    let mut met = false;
    for part in parts {
        if part.meets(q) {
            met = true;
        } else if part.has(corner) {
            return BoxPart::In;
        }
    }
    if met { BoxPart::Met } else { BoxPart::Out }
}

impl MapShape {
    /// The shape without a part: no place lies inside.
    pub fn new(alloc: Global) -> MapShape
        ensures { result ≡ [] }
    {
        MapShape {
            parts: Vec::new(alloc),
        }
    }

    /// Does nothing: the parts are those of closed rings.
    pub(crate) fn are_parts(&self)
        ensures { All IsPart self.now }
    {
        let _ = &self.parts;
    }

    /// How many edges there are, as far as they are counted.
    pub(crate) fn edges(&self) -> usize
        ensures { result ≡ edge_count self.now }
    {
        let mut edges = 0usize;
        for part in &self.parts {
            edges = edges.saturating_add(part.size());
        }
        edges
    }

    /// The facts on a box.
    pub(crate) fn known(&self, alloc: Global, q: MapBox) -> Result<Known, AllocError>
        requires { IsBox q }
        ensures { IfOk result (λ known. IsKnown self.now q known) }
    {
        Known::new(alloc, &self.parts, q)
    }

    /// Adds a part. Fails only if there is no memory for it, and then the shape stays as it was.
    pub fn add(&mut self, part: MapPart) -> Result<(), AllocError>
        ensures added { OnOk result (self.new ≡ self.old ++ (part ∷ [])) }
        ensures kept { OnErr result (self.new ≡ self.old) }
    {
        part.is_part();
        self.parts.push(part)?;
        Ok(())
    }

    /// Whether a place lies inside: whether of some part the edges that pass north of it, on any turn of 360 degrees,
    /// are odd in number. `OutOfRange` if the longitude is beyond 540 degrees or the latitude beyond 90. Each edge is
    /// looked at once.
    pub fn has(&self, place: Place) -> Result<bool, MapFault>
        ensures value { IfOk result (λ has. has ≡ inside self.now place) }
        ensures within { IfOk result (λ _. IsMapPlace place) }
        ensures fault { IfErr result (λ fault. (fault ≡ OutOfRange) × ¬ (IsMapPlace place)) }
    {
        if !is_place(place) {
            return Err(MapFault::OutOfRange);
        }
        Ok(have(&self.parts, place))
    }

    /// How a box lies: `In` if all its places lie inside, `Out` if none does, and `Met` if an edge meets it. Each edge
    /// is looked at twice at most. `WrongBox` if the box has no place, or corners that are none of the map.
    pub fn part(&self, bounds: MapBox) -> Result<BoxPart, MapFault>
        ensures exact { IfOk result (λ part. part ≡ part_of self.now bounds) }
        ensures inside { IfOk result (λ part. part ≡ BoxPart.In → (p : Place) → InBox bounds p
            → inside self.now p ≡ true) }
        ensures outside { IfOk result (λ part. part ≡ BoxPart.Out → (p : Place) → InBox bounds p
            → inside self.now p ≡ false) }
        ensures within { IfOk result (λ _. IsBox bounds) }
        ensures fault { IfErr result (λ fault. (fault ≡ WrongBox) × ¬ (IsBox bounds)) }
    {
        if !is_box(bounds) {
            return Err(MapFault::WrongBox);
        }
        Ok(box_part(&self.parts, bounds))
    }
}
