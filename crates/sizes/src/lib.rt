// How many rows, segments and events there should be: a step that would leave more waits for one that leaves fewer.
#![tactic(auto)]

ghost use Rattle.std.specs.Prelude.{◌≡◌};
ghost use Rattle.book.specs.Real.{sizes};
ghost use Rattle.sizes.specs.Model.{sizes_of};

// How many there should be at most, before a step: rows in the front, in the buffer and in a page; segments of one level;
// rows let go in a step; events in an out page and in a log box.
#[derive(Clone, Copy, PartialEq, Eq, Debug)]
pub struct Sizes {
    pub front: usize,
    pub buffer: usize,
    pub rows: usize,
    pub segments: usize,
    pub emits: usize,
    pub outs: usize,
    pub log: usize,
}

// The sizes that all workers share.
pub const SIZES: Sizes = Sizes {
    front: 256,
    buffer: 512,
    rows: 512,
    segments: 16,
    emits: 128,
    outs: 512,
    log: 512,
};

impl Default for Sizes {
    fn default() -> Sizes
        ensures { sizes_of result ≡ sizes }
    {
        SIZES
    }
}
