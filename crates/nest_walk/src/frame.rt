// The loops that a walk is in.

ghost use Rattle.std.specs.Prelude.{◌≡◌, ◌<◌, ◌≤◌, ℕ, Some, length, replicate, slice_get, slice_set};

use crate::path::MOST_LOOPS;
use crate::trips::Trips;
use nest_tree::Item;

/// Statements one behind another, with the numbers of their first stop and of their first piece of
/// work.
#[derive(Clone, Copy)]
pub struct Part<'a> {
    pub(crate) items: &'a [Item],
    pub(crate) place: u32,
    pub(crate) first: u32,
}

/// A loop that a walk is in: its body, its later trips, and the statements behind it.
#[derive(Clone, Copy)]
pub struct Frame<'a> {
    pub(crate) body: Part<'a>,
    pub(crate) later: Trips,
    pub(crate) behind: &'a [Item],
}

impl Frame<'_> {
    ghost use Rattle.nest_walk.specs.Frames.{ended, level_of};

    // A loop that is left, where its body ended with this number.
    fn ended(end: u32) -> Self
        ensures { level_of result ≡ ended end }
    {
        let body = Part {
            items: &[],
            place: end,
            first: end,
        };
        Frame {
            body,
            later: Trips::new(0, 1, 0),
            behind: &[],
        }
    }
}

/// The loops that a walk is in, by depth from the outermost.
#[derive(Clone, Copy)]
pub struct Frames<'a> {
    pub(crate) all: [Frame<'a>; MOST_LOOPS],
}

impl<'a> Frames<'a> {
    ghost use Rattle.nest_walk.specs.Frames.{ended, levels_to};

    // Six loops that are left, where their bodies ended with this number.
    pub(crate) fn ended(end: u32) -> Self
        ensures { (k : ℕ) → k ≤ 6 → levels_to result.all k ≡ replicate k (ended end) }
    {
        Frames {
            all: [Frame::ended(end); MOST_LOOPS],
        }
    }

    // The first so many loops are left, where their bodies ended with this number.
    pub(crate) fn end(&mut self, depth: usize, end: u32)
        requires { depth ≤ 6 }
        ensures { levels_to self.new.all depth ≡ replicate depth (ended end) }
    {
        let frame = Frame::ended(end);
        for level in 0..depth {
            self.put(level, frame);
        }
    }

    // The frame at this depth, from 0.
    pub(crate) fn at(&self, depth: usize) -> Frame<'a>
        requires { depth < 6 }
        ensures { slice_get self.now.all depth ≡ Some result }
    {
        let all = &self.all[..];
        all[depth]
    }

    // Another frame at this depth, from 0.
    pub(crate) fn put(&mut self, depth: usize, frame: Frame<'a>)
        requires { depth < 6 }
        ensures room { depth < length self.old.all }
        ensures all { self.new.all ≡ slice_set self.old.all depth frame.entry }
    {
        let all = &mut self.all[..];
        all[depth] = frame;
    }

    // Other later trips of the frame at this depth, from 0.
    pub(crate) fn put_later(&mut self, depth: usize, later: Trips)
        requires { depth < 6 }
        ensures room { depth < length self.old.all }
        ensures all { (f : Frame) → slice_get self.old.all depth ≡ Some f
            → self.new.all ≡ slice_set self.old.all depth (record f { later = later }) }
    {
        let all = &mut self.all[..];
        all[depth].later = later;
    }
}
