// Which object answers for a name: `resolve_symbol_address` of object_data_graph.rs, over the arena and the table of links.
ghost use Rattle.std.specs.Prelude.{◌≡◌, ◌-◌};
ghost use Rattle.words.specs.Hash.{elf_hash};
ghost use Rattle.scope.specs.Steps.Links.{link_at, links_from, count_in, address_in};
ghost use Rattle.scope.specs.Steps.ScopeCode.{answer_at, or_else, link_answer, own_answer, scan_links, resolve_links, resolve_copy_links};

use crate::links::{Link, Links};
use object::hash_tables::Definition;

// What a search yields: the object that has the name, its definition and address.
#[derive(Clone, Copy)]
pub struct Hit {
    pub object: usize,
    pub definition: Definition,
    pub address: u64,
}

// What the object at a link has for a name, whose hashes are given.
#[tactic(auto, unfolding(crate::specs::Steps::ScopeCode::answer_at))]
pub fn answer_at(arena: &[u8], s: Link, name: &[u8], gnu: u32, elf: u32) -> Option<Definition>
    ensures { result ≡ answer_at arena.now s name.now gnu elf }
{
    let view = s.view;
    object::hash_tables::ask(
        sheet::sheet::part_of(arena, s.offset, s.span),
        view,
        name,
        gnu,
        elf,
    )
}

impl<'a> Links<'a> {
    // The answer of object `k`.
    #[tactic(auto, unfolding(crate::specs::Steps::ScopeCode::link_answer, crate::specs::Steps::ScopeCode::scoped_by))]
    fn link_answer(&self, arena: &[u8], k: usize, name: &[u8], gnu: u32, elf: u32) -> Option<Hit>
        ensures { result ≡ link_answer (address_in self.now) arena.now k (link_at self.now k) name.now gnu elf }
    {
        let s = self.link(k);
        let definition = answer_at(arena, s, name, gnu, elf)?;
        let base = self.address().wrapping_add(s.offset as u64);
        Some(Hit {
            object: k,
            definition,
            address: definition.address_at(base),
        })
    }

    // The answer of object `k`, if its definition is protected.
    fn own_answer(&self, arena: &[u8], k: usize, name: &[u8], gnu: u32, elf: u32) -> Option<Hit>
        ensures { result ≡ own_answer (address_in self.now) arena.now k (link_at self.now k) name.now gnu elf }
    {
        if self.ruled_out(arena, k, gnu) {
            return None;
        }
        self.link_answer(arena, k, name, gnu, elf)
            .filter(|found| found.definition.protected)
    }

    // The first answer of the objects from `start` on for a name whose GNU hash is given. Its System V hash is made at the first object that has
    // a System V table.
    fn scan(&self, arena: &[u8], start: usize, name: &[u8], gnu: u32) -> Option<Hit>
        ensures { result ≡ scan_links (address_in self.now) arena.now start (links_from self.now start (count_in self.now - start)) name.now gnu (elf_hash name.now) }
    {
        let mut made = None;
        for k in start..self.count() {
            if self.ruled_out(arena, k, gnu) {
                continue;
            }
            let elf = self.elf_for(k, name, &mut made);
            let found = self.link_answer(arena, k, name, gnu, elf);
            if found.is_some() {
                return found;
            }
        }
        None
    }

    // The host's answer.
    #[tactic(auto, using(crate::proofs::ScopeLaws::link_any))]
    fn host_answer(&self, arena: &[u8], name: &[u8], gnu: u32) -> Option<Hit>
        ensures { result ≡ link_answer (address_in self.now) arena.now 0 (link_at self.now 0) name.now gnu (elf_hash name.now) }
    {
        let elf = self.elf_for(0, name, &mut None);
        self.link_answer(arena, 0, name, gnu, elf)
    }

    // The first answer of the objects from `start` on, else the host's. No `or_else`: nothing is known of a closure that captures `self`.
    #[tactic(auto, unfolding(crate::specs::Steps::ScopeCode::or_else))]
    fn scan_or_host(&self, arena: &[u8], start: usize, name: &[u8], gnu: u32) -> Option<Hit>
        ensures { result ≡ or_else (scan_links (address_in self.now) arena.now start (links_from self.now start (count_in self.now - start)) name.now gnu (elf_hash name.now)) (link_answer (address_in self.now) arena.now 0 (link_at self.now 0) name.now gnu (elf_hash name.now)) }
    {
        match self.scan(arena, start, name, gnu) {
            Some(found) => Some(found),
            None => self.host_answer(arena, name, gnu),
        }
    }

    // The answer for a name, whose GNU hash is given: a protected definition of the requester, else program, libraries in list order, host. No
    // `or_else`, as in `scan_or_host`.
    #[tactic(auto, unfolding(crate::specs::Steps::ScopeCode::or_else, crate::specs::Steps::ScopeCode::resolve_links), using(crate::proofs::ScopeLaws::own_any))]
    pub fn resolve(&self, arena: &[u8], requester: usize, name: &[u8], gnu: u32) -> Option<Hit>
        ensures { result ≡ resolve_links arena.now self.now requester name.now gnu (elf_hash name.now) }
    {
        let elf = self.elf_for(requester, name, &mut None);
        match self.own_answer(arena, requester, name, gnu, elf) {
            Some(own) => Some(own),
            None => self.scan_or_host(arena, 1, name, gnu),
        }
    }

    // COPY's answer for a name: libraries in list order, then host.
    #[tactic(auto, unfolding(crate::specs::Steps::ScopeCode::resolve_copy_links))]
    pub fn resolve_copy(&self, arena: &[u8], name: &[u8], gnu: u32) -> Option<Hit>
        ensures { result ≡ resolve_copy_links arena.now self.now name.now gnu (elf_hash name.now) }
    {
        self.scan_or_host(arena, 2, name, gnu)
    }
}
