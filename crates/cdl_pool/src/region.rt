// Words, and how many of them were handed out.
ghost use Rattle.std.specs.Prelude.{◌≡◌, ◌+◌, ◌<◌, ◌≤◌, length, replicate, IfOk, IfSome, MatchOption, pos};
ghost use Rattle.std.specs.Borrow.{sem};
ghost use Rattle.cdl_pool.specs.Windows.{Extent, window, LiesWithin, LieApart};
ghost use Rattle.cdl_pool.specs.Lent.{LendsWindow, LendsAll};

use crate::Window;
use cdl_source::OutOfMemory;
use std::alloc::Global;
use std::marker::Model;

/// One run of words. They are handed out in windows, from the first word on, and no word twice.
#[derive(Debug, Drop)]
pub struct Region {
    words: Vec<i64>,
    used: usize,
}

impl Model for Region {
    ghost use Rattle.std.specs.Prelude.{◌≤◌, length};
    ghost use Rattle.cdl_pool.specs.Windows.{Carved};

    ghost Value = { Carved };

    ghost view = { λ r. record { words = r.words.items; used = r.used } };

    ghost invariant = { λ r. r.used ≤ length r.words.items };
}

impl Region {
    /// So many words, all 0, of which none was handed out.
    pub fn new(alloc: Global, words: usize) -> Result<Region, OutOfMemory>
        ensures { IfOk result (λ r. r ≡ record { words = replicate words (pos 0); used = 0 }) }
    {
        let words = vec![in alloc; 0i64; words]?;
        Ok(Region { words, used: 0 })
    }

    /// Hands out the next `len` words. None: fewer are left, and nothing changes. It takes no memory.
    pub fn carve(&mut self, len: usize) -> Option<Window>
        ensures next { MatchOption result
            ((length self.old.words < self.old.used + len) × (self.new ≡ self.old))
            (λ w. (w ≡ record { place = self.old.used; len = len }) × (self.new ≡ record self.old { used = self.old.used + len })) }
        ensures within { IfSome result (LiesWithin self.new) }
        ensures apart { IfSome result (λ w. (v : Extent) → LiesWithin self.old v → LieApart v w) }
        ensures room { self.new.used ≤ length self.new.words }
    {
        if self.words.len() - self.used < len {
            return None;
        }
        let window = Window::new(self.used, len);
        self.used += len;
        Some(window)
    }

    /// All words, from the first to the last, lent.
    pub fn all(&self) -> &[i64]
        ensures { result.now ≡ self.now.words }
    {
        self.words.as_slice()
    }

    /// All words, lent to be written. Parts of them that lie apart are lent at once by `split_at_mut`.
    pub fn all_mut(&mut self) -> &mut [i64]
        ensures* writes_back { sem 𝓛 (LendsAll self.entry result) }
        ensures value { result.now ≡ self.old.words }
    {
        self.words.as_mut_slice()
    }

    /// The words of a window, lent.
    pub fn words(&self, w: &Window) -> &[i64]
        requires { LiesWithin self.now w.now }
        ensures { result.now ≡ window self.now.words w.now }
    {
        &self.words[w.place()..w.place() + w.len()]
    }

    /// The words of a window, lent to be written. What is written there leaves all other words.
    pub fn words_mut(&mut self, w: &Window) -> &mut [i64]
        requires { LiesWithin self.old w.now }
        ensures* writes_back { sem 𝓛 (LendsWindow self.entry w.now result) }
        ensures value { result.now ≡ window self.old.words w.now }
    {
        let words = &mut self.words;
        words.slice_mut(w.place()..w.place() + w.len())
    }
}
