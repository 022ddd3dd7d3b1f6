// Where the parts of a lent book and a lent store lie: read once per call, and handed to all that makes values of them.

ghost use Rattle.std.specs.Prelude.{◌≡◌, ◌≤◌, length};
ghost use Rattle.book.specs.Check.{book_number};
ghost use Rattle.store.specs.Store.{top_level, store_level};
ghost use Rattle.store.specs.Check.{store_number};
ghost use Rattle.values.specs.Layout.{LevelsIn, LayoutOf};

use store::sizes::level_starts;
use store::{sample_count, top_level};

// The sizes of a book that values hang on, and the places of a store's levels.
#[derive(Clone, Copy)]
pub struct Layout {
    // N: taps per phase
    pub taps: usize,
    // M: phases
    pub phases: usize,
    // F: points of a fade
    pub fade: u32,
    // where levels 0..4 begin, and in the last place where level 4 ends
    pub starts: [usize; 6],
}

// The layout of an accepted book and an accepted store.
pub fn layout_of(book: &[i32], store: &[i32]) -> Layout
    requires { (book_number book.now ≡ 0) × (store_number store.now ≡ 0) }
    ensures { LayoutOf book.now store.now (top_level store.now) result }
{
    let s = book::read_sizes(book);
    let fade = s.fade as u32;
    let starts = level_starts(sample_count(store), top_level(store));
    Layout {
        taps: s.taps,
        phases: s.phases,
        fade,
        starts,
    }
}

// The words of a level.
pub fn level_words(store: &[i32], layout: Layout, level: u32) -> &[i32]
    requires { (level ≤ 4) × LevelsIn store.now level layout }
    ensures { (result.now ≡ store_level store.now level) × (length result.now ≤ 1048576) }
{
    let l = level as usize;
    let start = layout.starts[l];
    let end = layout.starts[l + 1];
    &store[start..end]
}
