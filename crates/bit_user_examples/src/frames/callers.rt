//! Callers that need no proof of their own: each has one fact that a user of maps of frames relies on.
ghost use Rattle.std.specs.Prelude.{◌≡◌, ◌%◌, ◌<◌, ◌≤◌, false, IfOk, IfSome, IsTrue};
ghost use Rattle.bit_frames.specs.FreeMap.{AreFree};
ghost use Rattle.bit_frames.specs.FreeRuns.{free_runs_of};
ghost use Rattle.bit_frames.specs.Serving.{IsNeverTwice};

use bit_frames::{FreeMap, NotFree, Reply, Request};
use std::alloc::{AllocError, Global};
use std::ops::Range;

/// Frames that are taken and given back at once leave the map as it was.
pub fn given_back(frames: &mut FreeMap, count: usize) -> Option<usize>
    requires { 0 < count }
    ensures { frames.new ≡ frames.old }
{
    let first = frames.take_run(count)?;
    match frames.give_back(first, count) {
        Ok(()) => Some(first),
        Err(_) => None,
    }
}

/// Frames that were taken are given back without a refusal.
pub fn never_refused(frames: &mut FreeMap, count: usize) -> bool
    requires { 0 < count }
    ensures { IsTrue result }
{
    match frames.take_run(count) {
        None => true,
        Some(first) => frames.give_back(first, count).is_ok(),
    }
}

/// An aligned run begins at a multiple, and was free.
pub fn taken_at_a_multiple(frames: &mut FreeMap, count: usize, align: usize) -> Option<usize>
    requires some { 0 < count }
    requires align { 0 < align }
    ensures { IfSome result (λ first. (first % align ≡ 0) × AreFree frames.old count first) }
{
    frames.take_aligned(count, align)
}

/// Frames that were taken where they fit best are given back.
pub fn fitted_and_given_back(frames: &mut FreeMap, count: usize) -> Option<usize>
    requires { 0 < count }
    ensures { frames.new ≡ frames.old }
{
    let first = frames.take_best_fit(count)?;
    match frames.give_back(first, count) {
        Ok(()) => Some(first),
        Err(_) => None,
    }
}

/// No frame is taken twice, whatever the requests are.
pub fn served(
    frames: &mut FreeMap,
    alloc: Global,
    requests: &[Request],
) -> Result<Vec<Reply>, AllocError>
    ensures { IfOk result (λ replies. IsNeverTwice requests.now replies.items) }
{
    frames.serve(alloc, requests)
}

/// Frames that were reserved are not free.
pub fn reserved(frames: &mut FreeMap, start: usize, end: usize, frame: usize) -> bool
    requires start { start ≤ frame }
    requires end { frame < end }
    ensures { result ≡ false }
{
    match frames.reserve(start..end) {
        Ok(()) => frames.is_free(frame),
        Err(NotFree) => false,
    }
}

/// Frames can't be reserved twice.
pub fn reserved_twice(frames: &mut FreeMap, start: usize, end: usize) -> bool
    requires { start < end }
    ensures { IsTrue result }
{
    match frames.reserve(start..end) {
        Ok(()) => frames.reserve(start..end).is_err(),
        Err(NotFree) => true,
    }
}

/// Frames that are free can be reserved.
pub fn reserved_where_free(frames: &mut FreeMap, start: usize, end: usize) -> bool
    ensures { IsTrue result }
{
    if frames.is_run_free(start..end) {
        return frames.reserve(start..end).is_ok();
    }
    true
}

/// What was found from a frame on begins there or later, and was free.
pub fn found_from(frames: &FreeMap, from: usize, count: usize) -> Option<usize>
    requires { 0 < count }
    ensures later { IfSome result (λ first. from ≤ first) }
    ensures free { IfSome result (λ first. AreFree frames.now count first) }
{
    frames.find_next_fit(from, count)
}

/// The highest run is not below the lowest.
pub fn ordered(frames: &FreeMap, count: usize) -> bool
    requires { 0 < count }
    ensures { IsTrue result }
{
    let (Some(first), Some(last)) = (frames.find_first_fit(count), frames.find_last_fit(count))
    else {
        return true;
    };
    first <= last
}

/// Frames that were taken at the end are given back.
pub fn last_given_back(frames: &mut FreeMap, count: usize) -> Option<usize>
    requires { 0 < count }
    ensures { frames.new ≡ frames.old }
{
    let first = frames.take_last_fit(count)?;
    match frames.give_back(first, count) {
        Ok(()) => Some(first),
        Err(_) => None,
    }
}

/// The runs of free frames, collected.
pub fn runs_collected(frames: &FreeMap, alloc: Global) -> Result<Vec<Range<usize>>, AllocError>
    ensures { IfOk result (λ runs. runs.items ≡ free_runs_of frames.now) }
{
    frames.iter_free_runs().collect(alloc)
}

/// A copy is equal to the map.
pub fn copied(frames: &FreeMap) -> Result<bool, AllocError>
    ensures { IfOk result (λ same. IsTrue same) }
{
    let copy = frames.clone()?;
    Ok(copy == *frames)
}
