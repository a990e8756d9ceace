// A record of a document.
ghost use Rattle.std.specs.Prelude.{◌≡◌};

// A record that a walk came to: where it stands, and its number in the order in which the walk came to them, from 0 on.
#[derive(Clone, Copy)]
pub(crate) struct Noted {
    pub(crate) page: u32,
    pub(crate) serial: u32,
    pub(crate) slot: u16,
}
