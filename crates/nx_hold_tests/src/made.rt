// Pieces, made of bytes that are written with nothing of `nx_piece`.
ghost use Rattle.std.specs.Prelude.{IfOk};
ghost use Rattle.nx_piece.specs.Valid.{AreNear, IsValidPiece};

use nx_lists::NoMemory;
use nx_piece::{Far, Item, Piece, PieceTree, Proxy, Stored, decode, decode_proxies, size, weight};
use std::alloc::Global;
use std::process::Abort;

/// What a piece is made of: an element with so many slots of content, in texts of at most 128 each, before a run of so
/// many proxies, the first of which names this page.
#[derive(Clone, Copy, Debug, PartialEq, Eq)]
pub struct Form {
    pub slots: u8,
    pub proxies: u32,
    pub page: u32,
}

impl Form {
    /// How many texts it has, 1 at least.
    fn texts(self) -> u8 {
        if self.slots > 128 { 2 } else { 1 }
    }

    /// How many slots of content its text with this index has.
    fn text_slots(self, index: u8) -> u8 {
        if index == 0 {
            self.slots.min(128)
        } else {
            self.slots.saturating_sub(128)
        }
    }

    /// How many bytes its record has with its proxies.
    pub fn inline_length(self) -> u32 {
        let runs = if self.proxies == 0 { 0 } else { 1 };
        let items = u32::from(self.texts())
            .saturating_add(runs)
            .saturating_add(1);
        let groups = self
            .proxies
            .saturating_add(u32::from(self.slots))
            .saturating_add(items);
        groups.saturating_mul(8).saturating_add(16)
    }

    /// How many chain pages its proxies take.
    pub fn chain_pages(self) -> u32 {
        if self.inline_length() <= 8_176 {
            0
        } else {
            self.proxies.div_ceil(1_023)
        }
    }

    /// The page, slot and number of roots of a proxy.
    fn proxy(self, index: u32) -> (u32, u32, u32) {
        (
            self.page.wrapping_add(index),
            index % 65_536,
            index % 256 + 1,
        )
    }
}

fn push_short(bytes: &mut Vec<u8>, number: u32) -> Result<(), NoMemory> {
    bytes.push((number / 256 % 256) as u8)?;
    bytes.push((number % 256) as u8)?;
    Ok(())
}

fn push_long(bytes: &mut Vec<u8>, number: u32) -> Result<(), NoMemory> {
    push_short(bytes, number / 65_536)?;
    push_short(bytes, number % 65_536)
}

// The head and the items.
fn nodes(alloc: Global, form: Form) -> Result<Vec<u8>, NoMemory> {
    let mut bytes = Vec::new(alloc);
    push_nodes(&mut bytes, form)?;
    Ok(bytes)
}

fn push_nodes(bytes: &mut Vec<u8>, form: Form) -> Result<(), NoMemory> {
    let runs = if form.proxies == 0 { 0 } else { 1 };
    let below = form.texts().saturating_add(runs);
    push_head(bytes, form, below)?;
    for index in 0..form.texts() {
        push_text(bytes, form.text_slots(index))?;
    }
    push_run(bytes, form.proxies)
}

// The head, and the item of an element over so many others.
fn push_head(bytes: &mut Vec<u8>, form: Form, below: u8) -> Result<(), NoMemory> {
    let kind = if form.chain_pages() == 0 { 1 } else { 2 };
    bytes.extend_from_slice(&[kind, 0, 0, 1])?;
    push_long(bytes, u32::from(below).saturating_add(1))?;
    push_long(bytes, form.proxies)?;
    push_long(bytes, 0)?;
    bytes.extend_from_slice(&[2, 0, 0, 0, 0, 0, 0, below])?;
    Ok(())
}

// A text with so many slots of content.
fn push_text(bytes: &mut Vec<u8>, slots: u8) -> Result<(), NoMemory> {
    bytes.extend_from_slice(&[4, 0, 0, 0])?;
    push_short(bytes, u32::from(slots).saturating_mul(8))?;
    push_short(bytes, 0)?;
    for _ in 0..slots {
        bytes.extend_from_slice(b"contents")?;
    }
    Ok(())
}

// A run of so many proxies, where there are any.
fn push_run(bytes: &mut Vec<u8>, proxies: u32) -> Result<(), NoMemory> {
    if proxies > 0 {
        bytes.extend_from_slice(&[6, 0, 0, 0])?;
        push_long(bytes, proxies)?;
    }
    Ok(())
}

fn proxies(alloc: Global, form: Form) -> Result<Vec<u8>, NoMemory> {
    let mut bytes = Vec::new(alloc);
    push_proxies(&mut bytes, form)?;
    Ok(bytes)
}

fn push_proxies(bytes: &mut Vec<u8>, form: Form) -> Result<(), NoMemory> {
    for index in 0..form.proxies {
        let (page, slot, roots) = form.proxy(index);
        push_long(bytes, page)?;
        push_short(bytes, slot)?;
        push_short(bytes, roots)?;
    }
    Ok(())
}

/// The piece of this form.
pub fn made(rt: &impl Abort, alloc: Global, form: Form) -> Result<Piece, NoMemory>
    ensures valid { IfOk result (λ piece. IsValidPiece piece) }
    ensures near { IfOk result (λ piece. AreNear piece.body.roots) }
{
    let list = proxies(alloc, form)?;
    made_of(rt, alloc, form, list)
}

// The piece of this form with these proxies.
fn made_of(rt: &impl Abort, alloc: Global, form: Form, list: Vec<u8>) -> Result<Piece, NoMemory>
    ensures valid { IfOk result (λ piece. IsValidPiece piece) }
    ensures near { IfOk result (λ piece. AreNear piece.body.roots) }
{
    let record = record(alloc, form, list.as_slice())?;
    Ok(near(rt, read(rt, alloc, record.as_slice(), list.as_slice())?))
}

// The bytes of the record.
fn record(alloc: Global, form: Form, list: &[u8]) -> Result<Vec<u8>, NoMemory> {
    let mut record = nodes(alloc, form)?;
    if form.chain_pages() == 0 {
        record.extend_from_slice(list)?;
    }
    Ok(record)
}

// The piece of the record, whose proxies stand in it or are these.
fn read(rt: &impl Abort, alloc: Global, bytes: &[u8], list: &[u8]) -> Result<Piece, NoMemory>
    ensures { IfOk result (λ piece. IsValidPiece piece) }
{
    let Some(stored) = decode(alloc, bytes)? else {
        panic!(rt; "no record was made");
    };
    match stored {
        Stored::Inline(piece) => Ok(piece),
        Stored::Chained { body, count, .. } => {
            let Some(proxies) = decode_proxies(alloc, list, count)? else {
                panic!(rt; "no proxies were made");
            };
            Ok(Piece { body, proxies })
        }
    }
}

// The piece, in which no content of more than 1,024 bytes stands: its nodes weigh what their items take.
#[tactic(auto, using(nx_piece::proofs::Laws::are_short, nx_piece::proofs::Laws::little_weight, crate::proofs::NearLemmas::near_by_size))]
fn near(rt: &impl Abort, piece: Piece) -> Piece
    requires { IsValidPiece piece }
    ensures valid { IsValidPiece result }
    ensures near { AreNear result.body.roots }
{
    assert_eq!(rt; size(&piece.body), weight(&piece.body));
    piece
}

/// A piece of one element, with a text that names this list for its content.
pub fn made_far(rt: &impl Abort, alloc: Global, far: Far) -> Result<Piece, NoMemory>
    ensures valid { IfOk result (λ piece. IsValidPiece piece) }
    ensures near { IfOk result (λ piece. AreNear piece.body.roots) }
{
    let record = far_record(alloc, far)?;
    Ok(near(rt, read(rt, alloc, record.as_slice(), &[])?))
}

fn far_record(alloc: Global, far: Far) -> Result<Vec<u8>, NoMemory> {
    let mut bytes = Vec::new(alloc);
    push_far(&mut bytes, far)?;
    Ok(bytes)
}

fn push_far(bytes: &mut Vec<u8>, far: Far) -> Result<(), NoMemory> {
    bytes.extend_from_slice(&[1, 0, 0, 1, 0, 0, 0, 2, 0, 0, 0, 0, 0, 0, 0, 0])?;
    bytes.extend_from_slice(&[2, 0, 0, 0, 0, 0, 0, 1])?;
    bytes.extend_from_slice(&[4, 1, 0, 0, 0, 8, 0, 0])?;
    push_long(bytes, far.first)?;
    push_long(bytes, far.length)
}

/// Checks that the piece is of this form, whole.
pub fn check(rt: &impl Abort, piece: &Piece, form: Form) {
    let [root] = piece.body.roots.as_slice() else {
        panic!(rt; "there is not one root");
    };
    let mut items = root.children.as_slice().iter();
    for index in 0..form.texts() {
        let Some(Item::Tree(text)) = items.next() else {
            panic!(rt; "there is no text");
        };
        check_text(rt, text, form.text_slots(index));
    }
    match items.next() {
        None => assert_eq!(rt; form.proxies, 0),
        Some(Item::Run { count }) => assert_eq!(rt; *count, form.proxies),
        Some(Item::Tree(_)) => panic!(rt; "there is more than the texts"),
    }
    assert!(rt; items.next().is_none(), "there is more than one run");
    check_proxies(rt, piece.proxies.as_slice(), form);
}

// The text has so many slots of content.
fn check_text(rt: &impl Abort, text: &PieceTree, slots: u8) {
    assert_eq!(rt; text.node.content.len(), usize::from(slots) * 8);
    for (index, byte) in text.node.content.as_slice().iter().enumerate() {
        assert_eq!(rt; *byte, letter(index));
    }
}

// The byte of a content at an index.
fn letter(index: usize) -> u8 {
    let letters = *b"contents";
    letters[index % 8]
}

fn check_proxies(rt: &impl Abort, proxies: &[Proxy], form: Form) {
    assert_eq!(rt; proxies.len(), form.proxies as usize);
    for (index, proxy) in proxies.iter().enumerate() {
        let found = (proxy.page, u32::from(proxy.slot), u32::from(proxy.roots));
        assert_eq!(rt; found, form.proxy((index % 4_294_967_296) as u32));
    }
}
