// One image for a stop inside a call of a host in memory.
ghost use Rattle.std.specs.Prelude.{◌≡◌, ◌≤◌, ◌<◌, ◌⊎◌, [], ℕ, false, true, IfOk, IsTrue, OnOk, length, slice_index, take};
ghost use Rattle.host_io.specs.Disk.{Area, Disk, IsSettled, area_of, with_area};
ghost use Rattle.host_io.specs.Memory.{Keeps};
ghost use Rattle.host_io.specs.Replay.{LeavesInside, State, after, begin, replay};
ghost use Rattle.host_io.specs.Stop.{AreSketches, IsFilled, IsSketch, IsStop, IsTouch, found_inside};
ghost use Rattle.host_io.specs.declared.areas.Areas.{Areas};

use crate::{Areas, Bytes, Call};
use std::alloc::{AllocError, Global};

/// What is kept of an area while its calls are gone through again.
#[derive(Drop)]
pub(crate) struct Sketch {
    // The bytes at the last sync, with the same byte in each range that was touched since.
    image: Vec<u8>,
    // The greatest length since.
    greatest: u64,
}

/// What is kept of both areas.
#[derive(Drop)]
pub(crate) struct Sketches {
    first: Sketch,
    second: Sketch,
}

/// What a stop inside the last of these calls leaves, and what was printed before it.
pub(crate) fn stop_inside(
    alloc: Global,
    given: &Areas,
    before: &[Call],
    call: &Call,
    fill: u8,
    keep: u64,
) -> Result<(Areas, Bytes), AllocError>
    ensures stop { IfOk result (λ left. IsStop (replay (begin given.now) before.now) call.now fill keep left.0 left.1) }
    ensures image { IfOk result (λ left. LeavesInside (replay (begin given.now) before.now) call.now (record { first = left.0.first; second = left.0.second; printed = left.1 })) }
{
    let settled = last_settled(before);
    let mut areas = given.copy(alloc)?;
    follow(alloc, &mut areas, &before[..settled])?;
    let mut sketches = rest_of(alloc, &areas)?;
    follow_sketched(alloc, &mut areas, &mut sketches, &before[settled..], fill)?;
    note(&mut sketches, &areas, call, fill);
    let Sketches { first, second } = sketches;
    let first = finish(first, fill, keep)?;
    let second = finish(second, fill, keep)?;
    let printed = printed_by(alloc, before)?;
    Ok((Areas { first, second }, printed))
}

// How many of the calls there were up to the last sync that succeeded.
fn last_settled(calls: &[Call]) -> usize
    ensures within { result ≤ length calls.now }
    ensures settled { (given : Areas) → IsSettled (replay (begin given) (take result calls.now)).disk }
{
    let mut last = 0;
    for (i, call) in calls.iter().enumerate() {
        if is_synced(call) {
            last = i + 1;
        }
    }
    last
}

// Whether the call is a sync that succeeded.
fn is_synced(call: &Call) -> bool
    ensures synced { IsTrue result → call.now ≡ Call.Sync true }
    ensures other { result ≡ false → (s : State) → (after s call.now).disk ≡ found_inside s call.now }
{
    match call {
        Call::Sync { done } => *done,
        _ => false,
    }
}

// What is kept of areas that are all on the disk.
fn rest_of(alloc: Global, areas: &Areas) -> Result<Sketches, AllocError>
    ensures { (fill : ℕ) (d : Disk) → IsSettled d → d.first.reads ≡ areas.now.first → d.second.reads ≡ areas.now.second → IfOk result (AreSketches fill d) }
{
    let first = rest_of_one(alloc, areas.first.items())?;
    let second = rest_of_one(alloc, areas.second.items())?;
    Ok(Sketches { first, second })
}

fn rest_of_one(alloc: Global, bytes: &[u8]) -> Result<Sketch, AllocError>
    ensures { IfOk result (λ sketch. (sketch.image.items ≡ bytes.now) × (sketch.greatest ≡ length bytes.now)) }
{
    let image = Vec::from_slice(alloc, bytes)?;
    Ok(Sketch {
        image,
        greatest: bytes.len() as u64,
    })
}

// Does to the areas what the calls did.
fn follow(alloc: Global, areas: &mut Areas, calls: &[Call]) -> Result<(), AllocError>
    ensures { (s : State) → Keeps s areas.old s.printed → OnOk result (let t = replay s calls.now in Keeps t areas.new t.printed) }
{
    for call in calls {
        advance(alloc, areas, call)?;
    }
    Ok(())
}

// Does to the areas what the call did.
fn advance(alloc: Global, areas: &mut Areas, call: &Call) -> Result<(), AllocError>
    ensures { (s : State) → Keeps s areas.old s.printed → OnOk result (let t = after s call.now in Keeps t areas.new t.printed) }
{
    match call {
        Call::Write {
            area,
            at,
            bytes,
            done: true,
        } => {
            let place = (*at).min(areas.bytes(*area).len() as u64);
            areas.put(alloc, *area, place, bytes.items())
        }
        Call::Cut {
            area,
            len,
            done: true,
        } => {
            let len = (*len).min(areas.bytes(*area).len() as u64);
            areas.cut(alloc, *area, len);
            Ok(())
        }
        _ => Ok(()),
    }
}

// Does to the areas what the calls did, and notes it.
fn follow_sketched(
    alloc: Global,
    areas: &mut Areas,
    sketches: &mut Sketches,
    calls: &[Call],
    fill: u8,
) -> Result<(), AllocError>
    ensures { (s : State) → Keeps s areas.old s.printed → AreSketches fill s.disk sketches.old
        → OnOk result (let t = replay s calls.now in Keeps t areas.new t.printed × AreSketches fill t.disk sketches.new) }
{
    for call in calls {
        note_call(alloc, areas, sketches, call, fill)?;
        advance(alloc, areas, call)?;
    }
    Ok(())
}

// Notes what the call touches, or that the areas are on the disk behind it.
fn note_call(
    alloc: Global,
    areas: &Areas,
    sketches: &mut Sketches,
    call: &Call,
    fill: u8,
) -> Result<(), AllocError>
    ensures { (s : State) → Keeps s areas.now s.printed → AreSketches fill s.disk sketches.old → OnOk result (AreSketches fill (after s call.now).disk sketches.new) }
{
    if is_synced(call) {
        *sketches = rest_of(alloc, areas)?;
    } else {
        note(sketches, areas, call, fill);
    }
    Ok(())
}

// Notes what the call touches.
fn note(sketches: &mut Sketches, areas: &Areas, call: &Call, fill: u8)
    ensures { (s : State) → Keeps s areas.now s.printed → AreSketches fill s.disk sketches.old → AreSketches fill (found_inside s call.now) sketches.new }
{
    match call {
        Call::Write {
            area,
            at,
            bytes,
            ..
        } => {
            let from = (*at).min(areas.bytes(*area).len() as u64);
            let to = from + bytes.items().len() as u64;
            note_range(sketches, *area, from, to, to, fill);
        }
        Call::Cut { area, len, .. } => {
            let to = areas.bytes(*area).len() as u64;
            note_range(sketches, *area, *len, to, 0, fill);
        }
        _ => {}
    }
}

// Notes that a range of an area was touched, and that it had this length.
fn note_range(sketches: &mut Sketches, area: u8, from: u64, to: u64, len: u64, fill: u8)
    ensures { (d : Disk) (b : Area) → IsTouch from to len (area_of d area) b → AreSketches fill d sketches.old → AreSketches fill (with_area d area b) sketches.new }
{
    if area == 0 {
        touch(&mut sketches.first, from, to, len, fill);
    } else {
        touch(&mut sketches.second, from, to, len, fill);
    }
}

// Notes that a range was touched, and that the area had this length.
fn touch(sketch: &mut Sketch, from: u64, to: u64, len: u64, fill: u8)
    ensures { (a b : Area) → IsTouch from to len a b → IsSketch fill a sketch.old → IsSketch fill b sketch.new }
{
    let end = to.min(sketch.image.len() as u64);
    if from < end {
        fill_range(
            sketch.image.as_mut_slice(),
            from as usize,
            end as usize,
            fill,
        );
    }
    sketch.greatest = sketch.greatest.max(len);
}

// Puts one byte into a range.
fn fill_range(bytes: &mut [u8], from: usize, to: usize, fill: u8)
    requires order { from ≤ to }
    requires within { to ≤ length bytes.old }
    ensures inside { (i : ℕ) → from ≤ i → i < to → slice_index bytes.new i ≡ fill }
    ensures stays { (i : ℕ) → slice_index bytes.old i ≡ fill → i < length bytes.old → slice_index bytes.new i ≡ fill }
    ensures outside { (i : ℕ) → (i < from) ⊎ (to ≤ i) → slice_index bytes.new i ≡ slice_index bytes.old i }
{
    for i in from..to {
        bytes[i] = fill;
    }
}

// The image: so many bytes more, as far as the area had them.
fn finish(sketch: Sketch, fill: u8, keep: u64) -> Result<Bytes, AllocError>
    ensures { (a : Area) → IsSketch fill a sketch → IfOk result (IsFilled fill keep a) }
{
    let Sketch {
        mut image,
        greatest,
    } = sketch;
    let len = (image.len() as u64).saturating_add(keep).min(greatest);
    image.resize(len as usize, fill)?;
    Ok(Bytes::from_vec(image))
}

// What the calls print.
fn printed_by(alloc: Global, calls: &[Call]) -> Result<Bytes, AllocError>
    ensures { (s : State) → s.printed ≡ [] → IfOk result (λ bytes. bytes ≡ (replay s calls.now).printed) }
{
    let mut printed = Vec::new(alloc);
    for call in calls {
        print_of(&mut printed, call)?;
    }
    Ok(Bytes::from_vec(printed))
}

// Puts what the call prints behind what was printed.
fn print_of(printed: &mut Vec<u8>, call: &Call) -> Result<(), AllocError>
    ensures { (s : State) → printed.old.items ≡ s.printed → OnOk result (printed.new.items ≡ (after s call.now).printed) }
{
    match call {
        Call::Print { bytes, done: true } => printed.extend_from_slice(bytes.items()),
        _ => Ok(()),
    }
}
