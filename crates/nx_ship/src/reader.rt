// A reader of a stream of groups that comes in pieces.
ghost use Rattle.std.specs.Prelude.{◌≡◌, ◌↔◌, ◌≤◌, ◌<◌, ◌+◌, ◌∷◌, ◌++◌, [], length, take, true};
ghost use Rattle.nx_numbers.specs.Sizes.{page_size};
ghost use Rattle.nx_ship.specs.Stream.{BeginsWithHeader};

use byteorder::{BigEndian, ByteOrder};
use nx_holdings::read_header;
use nx_lists::NoMemory;
use nx_slots::PageBytes;
use std::alloc::Global;

// How many bytes the head of a group has, the number of a page, and a page with its number.
const HEAD: usize = 12;

const NUMBER: usize = 4;

const PAGE: usize = 8_196;

// A reader of a stream of groups. Of the group under way it keeps the page that is under way alone, and each
// of its bytes comes there straight from the piece.
#[derive(Drop)]
pub(crate) struct Reader {
    // The number of the group under way, and how many pages it has: 0 where its head isn't there yet.
    pub(crate) number: u64,
    count: u32,
    // How many of its pages were given, and the least number that the next may have.
    pub(crate) taken: u32,
    least: u32,
    // What was taken of its head, or else of the number of its next page.
    front: Vec<u8>,
    // Where the bytes of that page go, and how many of them were taken.
    page: PageBytes,
    filled: usize,
    ghost whole: { length page.bytes ≡ page_size },
    ghost within: { filled ≤ page_size },
    ghost head: { count ≡ 0 → filled ≡ 0 },
    ghost number_short: { 0 < count → length front.items ≤ 4 },
    ghost number_first: { 0 < filled → length front.items ≡ 4 },
}

// What came of a piece of a stream, and how many of its bytes were taken.
#[derive(Drop)]
pub(crate) enum Fed {
    // No page is whole.
    More(usize),
    // The page of the group under way is whole, and may stand there under this number.
    Page(usize, u32),
    // So is its last page, and with it the group, which is good.
    Last(usize, u32),
    // The group under way isn't good, whatever comes.
    NotGood(usize),
}

impl Reader {
    ghost use Rattle.std.specs.Prelude.{◌⊎◌, ◌-◌, min, ℕ, List, false, IfOk, IfSome, OnOk, MatchOption};
    ghost use Rattle.nx_numbers.specs.Sizes.{entry_size, most_pages};
    ghost use Rattle.nx_replay.specs.Log.{Entry, Group};
    ghost use Rattle.nx_ship.specs.Stream.{count_in, IsStream};
    ghost use Rattle.nx_ship.specs.Reading.{HasFed, Feeds, Grows, TakesHead, TakesPage, MayFollow, page_in, page_of, unit_of};

    // A reader at the beginning of a stream. It takes no memory.
    pub(crate) fn new(alloc: Global) -> Reader
        ensures { HasFed result [] [] [] }
    {
        Reader {
            number: 0,
            count: 0,
            taken: 0,
            least: 0,
            front: Vec::new(alloc),
            page: PageBytes { bytes: [0; 8192] },
            filled: 0,
        }
    }

    // Takes the first bytes of a piece, no further than to the end of a head or of a page. The rest of
    // the piece is to be given next. Until then `page` gives a page that is whole.
    //
    // Errors: `NoMemory`. The reader is done with then.
    pub(crate) fn feed(&mut self, piece: &[u8]) -> Result<Fed, NoMemory>
        ensures { IfOk result (λ fed. Feeds fed piece.now self.old self.new) }
    {
        let wanted = self.wanted();
        let taken = wanted.min(piece.len());
        self.fill(&piece[..taken])?;
        if taken < wanted {
            return Ok(Fed::More(taken));
        }
        if self.count == 0 {
            if !self.take_head() {
                return Ok(Fed::NotGood(taken));
            }
            return Ok(Fed::More(taken));
        }
        let Some(page) = self.take_page() else {
            return Ok(Fed::NotGood(taken));
        };
        if self.taken < self.count {
            return Ok(Fed::Page(taken, page));
        }
        self.count = 0;
        Ok(Fed::Last(taken, page))
    }

    // The page under way; behind `Page` or `Last` the one that is whole, up to the next `feed`.
    pub(crate) fn page(&self) -> &PageBytes
        ensures { result.now ≡ self.now.page }
    {
        &self.page
    }

    // Whether the bytes so far end with a whole group. Otherwise what is left is no good group.
    pub(crate) fn is_between(&self) -> bool
        ensures { (bytes : List ℕ) (groups : List Group) (es : List Entry) → HasFed self.now bytes groups es
            → (rest : List ℕ) × IsStream bytes groups rest × ((result ≡ true) ↔ (rest ≡ [])) }
    {
        self.count == 0 && self.front.is_empty()
    }

    // How many bytes are missing of the head or of the page under way.
    fn wanted(&self) -> usize
        ensures head { self.now.count ≡ 0 → result ≡ 12 - length (unit_of self.now) }
        ensures page { 0 < self.now.count → result ≡ entry_size - length (unit_of self.now) }
    {
        let size = if self.count == 0 { HEAD } else { PAGE };
        size.saturating_sub(self.front.len() + self.filled)
    }

    // Takes bytes of the head or of the page under way, no more than are missing.
    fn fill(&mut self, bytes: &[u8]) -> Result<(), NoMemory>
        requires { 0 < self.old.count → length bytes.now ≤ entry_size - length (unit_of self.old) }
        ensures { OnOk result (Grows bytes.now self.old self.new) }
    {
        let first = self.front_of(bytes.len());
        self.front.extend_from_slice(&bytes[..first])?;
        put_behind(&mut self.page.bytes, self.filled, &bytes[first..]);
        self.filled += bytes.len() - first;
        Ok(())
    }

    // How many of so many bytes are those of the head, or of the page's number.
    fn front_of(&self, len: usize) -> usize
        ensures within { result ≤ len }
        ensures head { self.now.count ≡ 0 → result ≡ len }
        ensures number { 0 < self.now.count → result ≡ min (4 - length self.now.front.items) len }
    {
        if self.count == 0 {
            return len;
        }
        NUMBER.saturating_sub(self.front.len()).min(len)
    }

    // Takes the head that is whole, and answers whether it may be.
    fn take_head(&mut self) -> bool
        requires none { self.old.count ≡ 0 }
        requires whole { 12 ≤ length (unit_of self.old) }
        ensures yes { result ≡ true → TakesHead self.old self.new }
        ensures no { result ≡ false → 1 ≤ count_in (unit_of self.old) → count_in (unit_of self.old) ≤ most_pages → ⊥ }
    {
        let number = BigEndian::read_u64(&self.front);
        let count = BigEndian::read_u32(&self.front[8..]);
        if count == 0 || count > 16_777_216 {
            return false;
        }
        self.number = number;
        self.count = count;
        self.taken = 0;
        self.least = 0;
        self.front.clear();
        true
    }

    // Whether the page may be the next under this number.
    fn may_follow(&self, page: u32) -> bool
        ensures { (result ≡ true) ↔ MayFollow self.now (page_of page self.now) }
    {
        if page < self.least || page >= 16_777_216 {
            return false;
        }
        if self.taken > 0 {
            return true;
        }
        is_first(self.number, page, &self.page)
    }

    // Takes the page that is whole, if it may stand there, and gives its number.
    fn take_page(&mut self) -> Option<u32>
        requires some { 0 < self.old.count }
        requires whole { entry_size ≤ length (unit_of self.old) }
        ensures taken { MatchOption result (MayFollow self.old (page_in (unit_of self.old)) → ⊥) (λ page. self.old.taken < self.old.count → TakesPage (page_of page self.new) self.old self.new) }
        ensures low { IfSome result (λ page. page < most_pages) }
        ensures empty { IfSome result (λ _. self.new.filled ≡ 0) }
    {
        let page = BigEndian::read_u32(&self.front);
        if !self.may_follow(page) {
            return None;
        }
        self.taken = self.taken.saturating_add(1);
        self.least = page + 1;
        self.front.clear();
        self.filled = 0;
        Some(page)
    }
}

// Puts bytes behind the first ones of a page.
fn put_behind(page: &mut [u8], filled: usize, bytes: &[u8])
    requires { filled + length bytes.now ≤ length page.old }
    ensures first { take (filled + length bytes.now) page.new ≡ take filled page.old ++ bytes.now }
    ensures long { length page.new ≡ length page.old }
{
    page[filled..filled + bytes.len()].copy_from_slice(bytes);
}

// Whether a page under a number is page 0, and a header with the number of a group.
fn is_first(number: u64, page: u32, bytes: &PageBytes) -> bool
    ensures { (result ≡ true) ↔ BeginsWithHeader number (record { page = page; bytes = bytes.now.bytes } ∷ []) }
{
    if page != 0 {
        return false;
    }
    let Some(header) = read_header(bytes) else {
        return false;
    };
    header.number == number
}
