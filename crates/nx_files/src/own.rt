// Which files a store's own may be.
ghost use Rattle.std.specs.Prelude.{◌↔◌, IsTrue};
ghost use Rattle.nx_files.specs.Own.{MayBeOwn};

// The size of a page: a store whose first page is whole is as long at least.
const PAGE: u64 = 8192;

// Whether a file of so many bytes and a log that begins with this byte, where it has one, may be the pages
// and the log of one store.
pub fn is_own(pages: u64, first: Option<u8>) -> bool
    ensures { IsTrue result ↔ MayBeOwn pages first }
{
    match first {
        None => pages == 0,
        Some(0) => pages == 0 || PAGE <= pages,
        Some(first) => first == 1,
    }
}
