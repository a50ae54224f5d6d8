//! Lists of requests, served one after another.
ghost use Rattle.std.specs.Prelude.{◌≡◌, ◌<◌, IfOk, OnErr, length};
ghost use Rattle.bit_frames.specs.declared.free_map.serving.Request.TheVariants.{Take, GiveBack};
ghost use Rattle.bit_frames.specs.Serving.{HaveServed, IsServed, IsNeverTwice};

use crate::free_map::FreeMap;
use std::alloc::{AllocError, Global};

/// What is asked of a map of frames.
#[derive(Debug, Clone, Copy, PartialEq, Eq)]
pub enum Request {
    /// Takes the lowest run of this many free frames.
    Take(usize),
    /// Gives frames back: the first, and how many.
    GiveBack(usize, usize),
}

/// What became of a request.
#[derive(Debug, Clone, Copy, PartialEq, Eq)]
pub enum Reply {
    /// The frames from this one on were taken, as many as were asked for.
    Taken(usize),
    /// The frames are free again.
    GivenBack,
    /// Nothing changed: there is no such run, no frame was asked for, or a frame was given back that is free or not of
    /// the map.
    Refused,
}

impl FreeMap {
    /// Serves requests one after another, and returns the reply to each. No frame is taken twice, unless a request in
    /// between gave it back. Memory is taken first, and for the replies alone; it is refused only where there is a
    /// request, and then nothing changes.
    ///
    /// ```text
    /// frames.serve(alloc, &[Request::Take(4), Request::GiveBack(0, 2), Request::Take(1)])?
    /// // Taken(0), GivenBack, Taken(0)
    /// ```
    pub fn serve(&mut self, alloc: Global, requests: &[Request]) -> Result<Vec<Reply>, AllocError>
        ensures served { IfOk result (λ replies. HaveServed self.old requests.now replies.items self.new) }
        ensures never_twice { IfOk result (λ replies. IsNeverTwice requests.now replies.items) }
        ensures memory { OnErr result (0 < length requests.now) }
        ensures refused { OnErr result (self.new ≡ self.old) }
    {
        let mut replies = Vec::with_capacity(alloc, requests.len())?;
        replies.resize(requests.len(), Reply::Refused)?;
        for (i, request) in requests.iter().enumerate() {
            replies[i] = self.serve_one(*request);
        }
        Ok(replies)
    }

    /// Serves one request.
    pub fn serve_one(&mut self, request: Request) -> Reply
        ensures { IsServed self.old request result self.new }
    {
        match request {
            Request::Take(count) => self.serve_take(count),
            Request::GiveBack(first, count) => self.serve_give_back(first, count),
        }
    }

    // Serves a request for a run of frames.
    fn serve_take(&mut self, count: usize) -> Reply
        ensures { IsServed self.old (Take count) result self.new }
    {
        if count == 0 {
            return Reply::Refused;
        }
        match self.take_run(count) {
            Some(first) => Reply::Taken(first),
            None => Reply::Refused,
        }
    }

    // Serves a request to give frames back.
    fn serve_give_back(&mut self, first: usize, count: usize) -> Reply
        ensures { IsServed self.old (GiveBack first count) result self.new }
    {
        if first > self.frames() || count > self.frames() - first {
            return Reply::Refused;
        }
        match self.give_back(first, count) {
            Ok(()) => Reply::GivenBack,
            Err(_) => Reply::Refused,
        }
    }
}
