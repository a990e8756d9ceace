// The words of a command.
ghost use Rattle.std.specs.Prelude.{◌≤◌, IfSome};
ghost use Rattle.nx_wal_driver.specs.Command.{HasAllowedPages};

// How a store is made: with so many pages, one at least, that have this seed.
#[derive(Clone, Copy)]
pub struct Creation {
    pub pages: u32,
    pub seed: u64,
}

// How groups are committed: how many, of how many pages, one at least, and how many of them come
// before each checkpoint. 0 stands for none.
#[derive(Clone, Copy)]
pub struct Filling {
    pub groups: u64,
    pub pages: u32,
    pub every: u64,
    pub seed: u64,
}

#[derive(Clone, Copy)]
pub enum Command {
    // Makes a store, whose first group has all its pages.
    Create(Creation),
    // Commits groups.
    Fill(Filling),
    // Tells what each page has.
    Dump,
    // Opens the store and tells how long it is.
    Open,
}

// The command that the words behind that of the store are.
pub fn command_of(words: &[String]) -> Option<Command>
    ensures { IfSome result HasAllowedPages }
{
    let (name, rest) = words.split_first()?;
    let name = name.as_str();
    if name == "create" {
        return creation_of(rest);
    }
    if name == "fill" {
        return filling_of(rest);
    }
    if !rest.is_empty() {
        return None;
    }
    if name == "dump" {
        return Some(Command::Dump);
    }
    if name == "open" {
        return Some(Command::Open);
    }
    None
}

fn creation_of(words: &[String]) -> Option<Command>
    ensures { IfSome result HasAllowedPages }
{
    if words.len() > 2 {
        return None;
    }
    let pages = page_count(words, 0)?;
    let seed = number_or(words, 1, 0)?;
    Some(Command::Create(Creation { pages, seed }))
}

fn filling_of(words: &[String]) -> Option<Command>
    ensures { IfSome result HasAllowedPages }
{
    if words.is_empty() || words.len() > 4 {
        return None;
    }
    let groups = number_or(words, 0, 0)?;
    let pages = page_count(words, 1)?;
    let every = number_or(words, 2, 0)?;
    let seed = number_or(words, 3, 0)?;
    Some(Command::Fill(Filling {
        groups,
        pages,
        every,
        seed,
    }))
}

// A number of pages, 1 to 16,777,216.
fn page_count(words: &[String], at: usize) -> Option<u32>
    ensures { IfSome result (λ count. (1 ≤ count) × (count ≤ 16777216)) }
{
    let count = number_or(words, at, 0)?;
    if count == 0 || count > 16_777_216 {
        return None;
    }
    Some(count as u32)
}

// The number that a word says, or this one where there is no such word.
fn number_or(words: &[String], at: usize, otherwise: u64) -> Option<u64> {
    match words.get(at) {
        Some(word) => word.as_str().parse::<u64>().ok(),
        None => Some(otherwise),
    }
}
