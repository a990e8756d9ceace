// Pieces over a host in memory, which are asked for nothing that they don't promise to do. The methods promise
// nothing, since a test that knows much is proved slowly.
ghost use Rattle.std.specs.Prelude.{◌≡◌, ◌≢◌, [], true};
ghost use Rattle.nx_piece.specs.Valid.{AreNear, IsValidPiece};
ghost use Rattle.nx_weights.specs.Weight.{IsShort};
ghost use Rattle.nx_wal.specs.Wal.{pending};

use crate::pages::count_free;
use nx_hold::{
    TakenPiece, add_piece, content, free_content, hold_node, read_piece, remove_piece, take_piece,
    update_piece,
};
use nx_lists::{List, NoMemory};
use nx_memory::{Image, MemoryHost};
use nx_piece::{Piece, PieceTree, Proxy};
use nx_records::{Records, Rid, Settings, StoreError};
use nx_tree::{Bytes, Node};
use nx_wal::WalError;
use std::alloc::Global;
use std::process::Abort;
use std::test::Fail;

/// How many pages there may be.
pub const LIMIT: u32 = 64;

/// How many are free where no piece and no list is there.
pub const ALL_FREE: u32 = LIMIT - 2;

// A host with empty areas, and with room for some commits of many pages.
fn empty_host(alloc: Global) -> Result<MemoryHost, NoMemory> {
    let image = Image {
        pages: List::new(alloc),
        log: List::new(alloc),
    };
    MemoryHost::new(alloc, image, List::new(alloc), 1, 67_108_864)
}

fn empty_records(alloc: Global, host: &mut MemoryHost) -> Result<Records, StoreError> {
    let settings = Settings {
        k: 16,
        target: 50,
        tolerance: 4,
        limit: LIMIT,
    };
    Records::create(alloc, host, settings)
}

/// The place that a proxy names.
pub fn place_of(proxy: Proxy) -> Rid {
    Rid {
        page: proxy.page,
        slot: proxy.slot,
    }
}

/// Records over a host, and whether they were changed since the last commit. What a refused call changed
/// is dropped at once.
#[derive(Drop)]
pub struct Store {
    alloc: Global,
    host: MemoryHost,
    records: Records,
    changed: bool,
    ghost waits: { changed ≡ true → pending records.wal ≢ [] },
}

impl Store {
    /// Records without pieces.
    pub fn create(alloc: Global) -> Result<Store, Fail> {
        let mut host = empty_host(alloc)?;
        let records = empty_records(alloc, &mut host)?;
        Ok(Store {
            alloc,
            host,
            records,
            changed: false,
        })
    }

    pub fn alloc(&self) -> Global {
        self.alloc
    }

    pub fn log_length(&self) -> u64 {
        self.records.log_length()
    }

    pub fn read(&mut self, place: Rid) -> Result<Piece, StoreError> {
        match read_piece(self.alloc, &mut self.records, &mut self.host, place) {
            Ok(piece) => Ok(piece),
            Err(error) => {
                self.changed = false;
                self.records.abandon();
                Err(error)
            }
        }
    }

    pub fn add(&mut self, piece: &Piece) -> Result<Proxy, StoreError>
        requires valid { IsValidPiece piece.now }
        requires near { AreNear piece.now.body.roots }
    {
        match add_piece(self.alloc, &mut self.records, &mut self.host, piece) {
            Ok(proxy) => {
                self.changed = true;
                Ok(proxy)
            }
            Err(error) => {
                self.changed = false;
                self.records.abandon();
                Err(error)
            }
        }
    }

    pub fn update(&mut self, place: Rid, piece: &Piece) -> Result<Proxy, StoreError>
        requires valid { IsValidPiece piece.now }
        requires near { AreNear piece.now.body.roots }
    {
        match update_piece(self.alloc, &mut self.records, &mut self.host, place, piece) {
            Ok(proxy) => {
                self.changed = true;
                Ok(proxy)
            }
            Err(error) => {
                self.changed = false;
                self.records.abandon();
                Err(error)
            }
        }
    }

    pub fn remove(&mut self, place: Rid) -> Result<(), StoreError> {
        match remove_piece(self.alloc, &mut self.records, &mut self.host, place) {
            Ok(()) => {
                self.changed = true;
                Ok(())
            }
            Err(error) => {
                self.changed = false;
                self.records.abandon();
                Err(error)
            }
        }
    }

    pub fn take(&mut self, place: Rid) -> Result<TakenPiece, StoreError> {
        match take_piece(self.alloc, &mut self.records, &mut self.host, place) {
            Ok(taken) => {
                self.changed = true;
                Ok(taken)
            }
            Err(error) => {
                self.changed = false;
                self.records.abandon();
                Err(error)
            }
        }
    }

    /// The node as a piece has it. A list that comes isn't counted as a change: a record that names it is.
    pub fn hold(&mut self, node: Node) -> Result<PieceTree, StoreError>
        requires { IsShort node }
    {
        match hold_node(self.alloc, &mut self.records, &mut self.host, node) {
            Ok(made) => Ok(made),
            Err(error) => {
                self.changed = false;
                self.records.abandon();
                Err(error)
            }
        }
    }

    pub fn content(&mut self, at: &PieceTree) -> Result<Bytes, StoreError> {
        match content(self.alloc, &mut self.records, &mut self.host, at) {
            Ok(bytes) => Ok(bytes),
            Err(error) => {
                self.changed = false;
                self.records.abandon();
                Err(error)
            }
        }
    }

    pub fn free(&mut self, at: &PieceTree) -> Result<(), StoreError> {
        match free_content(self.alloc, &mut self.records, &mut self.host, at) {
            Ok(()) => Ok(()),
            Err(error) => {
                self.changed = false;
                self.records.abandon();
                Err(error)
            }
        }
    }

    /// Commits, where something was changed.
    pub fn commit(&mut self, rt: &impl Abort) -> Result<(), StoreError> {
        if !self.changed {
            return Ok(());
        }
        assert!(rt; self.records.log_length() <= 1 << 62);
        match self.records.commit(&mut self.host) {
            Ok(()) => {
                self.changed = false;
                Ok(())
            }
            Err(error) => {
                self.changed = false;
                self.records.abandon();
                Err(error)
            }
        }
    }

    /// How many pages are free after the last commit.
    pub fn free_pages(&mut self, rt: &impl Abort) -> Result<u32, WalError> {
        count_free(rt, self.alloc, &mut self.host)
    }

    /// Commits, and so many pages are free then.
    pub fn commit_with(&mut self, rt: &impl Abort, free: u32) -> Result<(), Fail> {
        self.commit(rt)?;
        assert_eq!(rt; self.free_pages(rt)?, free);
        Ok(())
    }
}
