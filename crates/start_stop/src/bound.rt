// A set that is bound, as its lists are made from it.
ghost use Rattle.std.specs.Prelude.{◌≡◌, ◌≤◌, length};
ghost use Rattle.words.specs.Memory.{mem};
ghost use Rattle.scope.specs.Steps.Links.{link_at};
ghost use Rattle.start_stop.specs.Steps.Rows.{row_at, base_at, bytes_at};

use crate::rows::Row;
use scope::links::Links;

// The arena, where each object lies in it, what each has to call, and in which order they are bound.
#[derive(Clone, Copy)]
pub(crate) struct Bound<'a> {
    pub(crate) arena: &'a [u8],
    pub(crate) links: &'a Links<'a>,
    pub(crate) rows: &'a [Row],
    pub(crate) order: &'a [u32],
    ghost at_most_64: { length order.now ≤ 64 },
}

impl<'a> Bound<'a> {
    // What object `k` has to call; nothing where there is no such object.
    pub(crate) fn row(&self, k: usize) -> Row
        ensures { result ≡ row_at self.now.rows.now k }
    {
        self.rows.get(k).copied().unwrap_or_default()
    }

    // How many bytes of the arena object `k` has.
    pub(crate) fn span(&self, k: usize) -> usize
        ensures { result ≡ (link_at self.now.links.now k).span }
    {
        let links = self.links;
        links.link(k).span
    }

    // The base of object `k`.
    pub(crate) fn base(&self, k: usize) -> u64
        ensures { result ≡ base_at self.now.links.now k }
    {
        let links = self.links;
        links.address().wrapping_add(links.link(k).offset as u64)
    }

    // The arena from the offset of object `k` on.
    #[tactic(auto, using(crate::proofs::RowLaws::part_bytes))]
    pub(crate) fn bytes(&self, k: usize) -> &'a [u8]
        ensures { mem result.now ≡ bytes_at self.now.arena.now self.now.links.now k }
    {
        let links = self.links;
        let s = links.link(k);
        sheet::sheet::part_of(self.arena, s.offset, self.arena.len())
    }
}
