// Pages of 4,096 bytes: port of page_size.rs.
ghost use Rattle.std.specs.Prelude.{◌≡◌, ◌%◌, ◌^◌};
ghost use Rattle.words.specs.Page.{page_start, page_offset, page_end};

// The start of the page that holds the address.
pub fn get_page_start(address: usize) -> usize
    ensures { result ≡ page_start address }
{
    address / 4096 * 4096
}

// How far the address is into its page.
pub fn get_page_offset(address: usize) -> usize
    ensures { result ≡ page_offset address }
{
    address % 4096
}

// The address rounded up to a page, modulo 2^64 as in the Rust.
pub fn get_page_end(address: usize) -> usize
    ensures { result ≡ page_end address % 2 ^ 64 }
{
    get_page_start(address.wrapping_add(4095))
}
