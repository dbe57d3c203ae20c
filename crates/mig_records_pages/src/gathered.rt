ghost use Rattle.std.specs.Prelude.{◌≡◌, ◌*◌, ◌≤◌, [], length, take};
ghost use Rattle.std.specs.Option.{option_copied, unwrap_or};
ghost use Rattle.mig_records_pages.specs.Copied.{IsPageBuffer};

/// Room for the words of a batch.
pub(crate) fn no_words() -> [u8; 8192] {
    [0; 8192]
}

/// Room for the pages of one write or read: 32 of them.
pub fn page_buffer() -> [u8; 131072]
    ensures { IsPageBuffer result }
{
    [0; 131072]
}

/// How many pages a page is.
fn one_page(page: &[u8; 4096]) -> u32
    ensures len { length page.now ≡ 4096 * result }
    ensures one { result ≡ 1 }
{
    (page.len() / 4096) as u32
}

/// How many pages come with a frame: 1 or 0.
pub fn pages_with(page: Option<&[u8; 4096]>) -> u32
    ensures len { length (unwrap_or (option_copied page.entry) []) ≡ 4096 * result }
    ensures most { result ≤ 1 }
{
    match page {
        Some(bytes) => one_page(bytes),
        None => 0,
    }
}

/// Puts the page, if there is one, to the front of the buffer; answers how many came: 1 or 0.
pub fn put_page(buffer: &mut [u8], page: Option<&[u8; 4096]>) -> u32
    requires room { 4096 ≤ length buffer.old }
    ensures bytes { take (4096 * result) buffer.new ≡ unwrap_or (option_copied page.entry) [] }
    ensures room { length buffer.new ≡ length buffer.old }
    ensures most { result ≤ 1 }
{
    match page {
        Some(bytes) => {
            buffer[0..4096].copy_from_slice(bytes);
            1
        }
        None => 0,
    }
}
