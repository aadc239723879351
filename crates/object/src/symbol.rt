// Symbols: port of symbol.rs and section.rs. Bytes past the image's end read as 0.
ghost use Rattle.std.specs.Prelude.{◌≡◌, ◌+◌, ◌*◌, ◌≤◌, length};
ghost use Rattle.object.specs.Symbol.{symbol_from, symbol_at, symbol_name, binding_of, is_defined, is_public, is_visible, is_exported};

use words::word::Word;

#[derive(Clone, Copy)]
pub struct Symbol {
    pub name: u32,
    pub info: u8,
    pub other: u8,
    pub section: u16,
    pub value: u64,
    pub size: u64,
}

// The symbol whose bytes stand at `p`, all of them in the image.
fn symbol_in(image: &[u8], p: usize) -> Symbol
    requires { p + 24 ≤ length image.now }
    ensures { result ≡ symbol_from image.now p }
{
    Symbol {
        name: u32::load(image, p + 0),
        info: image[p + 4],
        other: image[p + 5],
        section: u16::load(image, p + 6),
        value: u64::load(image, p + 8),
        size: u64::load(image, p + 16),
    }
}

// The symbol whose bytes stand `k` places after `at`. One that the image's end cuts is read from a copy, with zeros behind: every hit of a
// search reads a symbol, and tests its place once.
pub fn symbol_off(image: &[u8], at: usize, k: usize) -> Symbol
    ensures { result ≡ symbol_from image.now (at + k) }
{
    let n = image.len();
    let p = words::bytes::place(n, at, k);
    if n - p < 24 {
        let mut bytes = [0u8; 24];
        words::bytes::copy(&mut bytes, 0, image, p, 24);
        return symbol_in(&bytes, 0);
    }
    symbol_in(image, p)
}

// Symbol `s` of the table at `symbols`.
pub fn symbol_at(image: &[u8], symbols: usize, s: u32) -> Symbol
    ensures { result ≡ symbol_at image.now symbols s }
{
    symbol_off(image, symbols, 24 * (s as usize))
}

// Its name, a part of the image.
pub fn symbol_name<'a>(image: &'a [u8], symbols: usize, strings: usize, s: u32) -> &'a [u8]
    ensures { result.now ≡ symbol_name image.now symbols strings s }
{
    let at = words::bytes::word_off::<u32>(image, symbols, 24 * (s as usize));
    words::names::name_off(image, strings, at as usize)
}

// The binding: 0 local, 1 global, 2 weak.
pub fn binding(y: Symbol) -> u8
    ensures { result ≡ binding_of y }
{
    y.info / 16
}

pub fn is_defined(y: Symbol) -> bool
    ensures { result ≡ is_defined y }
{
    y.section != 0
}

// Global or weak; bindings of an operating system or processor are not.
pub fn is_public(y: Symbol) -> bool
    ensures { result ≡ is_public y }
{
    matches!(binding(y), 1 | 2)
}

// Default or protected.
pub fn is_visible(y: Symbol) -> bool
    ensures { result ≡ is_visible y }
{
    matches!(y.other % 4, 0 | 3)
}

#[tactic(auto, unfolding(crate::specs::Symbol::is_exported))]
pub fn is_exported(y: Symbol) -> bool
    ensures { result ≡ is_exported y }
{
    is_defined(y) && is_public(y) && is_visible(y)
}

// Whether the symbol whose bytes stand `k` places after `at` is exported: what a search asks of each hit by name.
pub(crate) fn exported_off(image: &[u8], at: usize, k: usize) -> bool
    ensures { result ≡ is_exported (symbol_from image.now (at + k)) }
{
    is_exported(symbol_off(image, at, k))
}
