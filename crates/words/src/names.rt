// Names in an image: from string_table.rs.
ghost use Rattle.std.specs.Prelude.{◌≡◌, ◌+◌, ◌==◌, position};
ghost use Rattle.words.specs.Names.{until_zero, name_at, same_bytes};

use crate::bytes::place;

fn first_zero(rest: &[u8]) -> Option<usize>
    ensures { result ≡ position (λ b. b == 0) rest.now }
{
    rest.iter().position(|b| *b == 0)
}

// The part of the image from `at` up to its zero byte, or to the end; empty where `at` is past the end.
pub fn name_at<'a>(image: &'a [u8], at: usize) -> &'a [u8]
    ensures { result.now ≡ name_at image.now at }
{
    name_off(image, at, 0)
}

// The same `k` places after `at`.
pub fn name_off<'a>(image: &'a [u8], at: usize, k: usize) -> &'a [u8]
    ensures { result.now ≡ name_at image.now (at + k) }
{
    let rest = &image[place(image.len(), at, k)..];
    let end = first_zero(rest).unwrap_or(rest.len());
    &rest[..end]
}

// Whether two names are equal, byte for byte.
#[tactic(auto, using(crate::proofs::NameLaws::same_test))]
pub fn same(a: &[u8], b: &[u8]) -> bool
    ensures { result ≡ same_bytes a.now b.now }
{
    a == b
}

// Whether the name at the start of `rest` is this one: its end is not sought first. It is asked of each hit of a search by name, and goes over the
// name once: `starts_with` and then `contains` for a zero byte would go over it twice.
fn starts_as(rest: &[u8], name: &[u8]) -> bool
    ensures { result ≡ same_bytes (until_zero rest.now) name.now }
{
    if rest.len() < name.len() {
        return false;
    }
    for (i, b) in name.iter().enumerate() {
        if rest[i] != *b || *b == 0 {
            return false;
        }
    }
    rest.len() == name.len() || rest[name.len()] == 0
}

// Whether the name `k` places after `at` is this one.
pub fn same_at(image: &[u8], at: usize, k: usize, name: &[u8]) -> bool
    ensures { result ≡ same_bytes (name_at image.now (at + k)) name.now }
{
    starts_as(&image[place(image.len(), at, k)..], name)
}
