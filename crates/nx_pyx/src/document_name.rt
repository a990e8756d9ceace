// The names of documents.
ghost use Rattle.std.specs.Prelude.{◌≡◌};
ghost use Rattle.std.specs.List.{list_all};
ghost use Rattle.nx_pyx.specs.DocumentName.{is_document_name, is_visible};

// As many bytes as a document's name has at most.
const LONGEST_NAME: usize = 255;

/// Whether a document may have this name: 1 to 255 bytes from `!` to `~`, the first not a hyphen. It
/// takes no memory.
pub fn is_document_name(name: &[u8]) -> bool
    ensures { result ≡ is_document_name name.now }
{
    match name.split_first() {
        None => false,
        Some((first, _)) => *first != b'-' && name.len() <= LONGEST_NAME && are_visible(name),
    }
}

// Whether a document's name may hold each of the bytes.
fn are_visible(bytes: &[u8]) -> bool
    ensures { result ≡ list_all is_visible bytes.now }
{
    bytes.iter().all(|b| is_visible(*b))
}

// Whether a document's name may hold the byte.
fn is_visible(b: u8) -> bool
    ensures { result ≡ is_visible b }
{
    (b'!'..=b'~').contains(&b)
}
