// How an area begins, and what stands at a gate, from the first bytes that were read there.
ghost use Rattle.std.specs.Prelude.{◌≡◌, ◌≤◌, ◌↔◌, ◌+◌, ◌++◌, ◌∷◌, [], ℕ, List, IsTrue, take};
ghost use Rattle.area_layout.specs.Layout.{header_bytes};
ghost use Rattle.gated_log.specs.Entries.{within};
ghost use Rattle.gated_log.specs.Front.{IsAtGate, IsBounded, IsFront};

use area_layout::laws::{head_read_back, header_read_back};
use area_layout::{EntryHead, Header, read_head, read_header, write_header};

/// How an area begins.
#[derive(Clone, Copy)]
pub(crate) enum Front {
    /// It has one byte at most.
    Short,
    /// It has more, and its header gate is closed.
    Shut,
    /// The header gate is open, and the header is there.
    Whole,
    /// The header gate is open, and the header isn't there.
    Wrong,
}

/// What stands at a gate's place.
#[derive(Clone, Copy)]
pub(crate) enum AtGate {
    Closed,
    /// An open gate, and the head of an entry within the bounds.
    Open(EntryHead),
    /// No gate, or an open one that has no such head behind it.
    Broken,
}

/// How the area begins whose first 17 bytes these are, or all that it has.
pub(crate) fn front_of(front: &[u8]) -> Front
    ensures { (area : List ℕ) → front.now ≡ take 17 area → IsFront area result }
{
    if front.len() <= 1 {
        return Front::Short;
    }
    if front[0] != 1 {
        return Front::Shut;
    }
    header_read_back();
    match read_header(&front[1..]) {
        Ok(header) if header.version == 1 && header.epoch == 1 => Front::Whole,
        _ => Front::Wrong,
    }
}

/// What stands at the gate from which on the area has these 6 bytes, or all that it has.
pub(crate) fn at_gate(front: &[u8], gate: u64, limit: u64) -> AtGate
    ensures bounds { IsBounded (within limit) gate result }
    ensures is { (rest : List ℕ) → front.now ≡ take 6 rest → IsAtGate (within limit) gate rest result }
{
    if front.is_empty() {
        return AtGate::Broken;
    }
    if front[0] != 1 {
        return AtGate::Closed;
    }
    head_read_back();
    match read_head(&front[1..]) {
        Ok(head) if head.kind <= 2 && has_room(gate, head.len, limit) => AtGate::Open(head),
        _ => AtGate::Broken,
    }
}

/// Whether the gate behind a payload of this length, of the entry at a gate, is not past the limit.
fn has_room(gate: u64, len: u32, limit: u64) -> bool
    ensures { IsTrue result ↔ (gate + 6 + len ≤ limit) }
{
    match gate.checked_add(6 + u64::from(len)) {
        Some(next) => next <= limit,
        None => false,
    }
}

/// The header of version 1 and epoch 1, and a closed gate.
pub(crate) fn closed_header() -> [u8; 17]
    ensures { result ≡ header_bytes (record { version = 1; epoch = 1 }) ++ 0 ∷ [] }
{
    let mut out = [0; 17];
    out[..16].copy_from_slice(&write_header(&Header {
        version: 1,
        epoch: 1,
    }));
    out
}
