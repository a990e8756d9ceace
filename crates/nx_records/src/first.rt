// The pages of a new store.
ghost use Rattle.std.specs.Prelude.{◌≡◌, ◌≢◌, [], ℕ, List, false, OnOk, IfErr};
ghost use Rattle.std.proofs.Math.ListN.{replicate};
ghost use Rattle.nx_chain.specs.Chain.{chain_bytes};
ghost use Rattle.nx_holdings.specs.Header.{AreSettings, IsInRange, header_bytes};
ghost use Rattle.nx_replay.specs.Log.{entry_pages};
ghost use Rattle.nx_wal.specs.Wal.{Follows, pending, wal_ended, length_of};
ghost use Rattle.nx_records.specs.First.{first_head, first_pages};

use crate::StoreError;
use nx_chain::chain_page;
use nx_holdings::{Header, NEWEST_FORMAT, Settings, header_page};
use nx_wal::Wal;

// The header of a new store.
pub(crate) fn first_header(settings: Settings) -> Header
    requires { AreSettings settings }
    ensures first { result ≡ first_head settings }
    ensures range { IsInRange result }
{
    Header {
        format: NEWEST_FORMAT,
        settings,
        pages: 2,
        free: 0,
        room: 0,
        number: 0,
        catalog: 1,
        catalog_length: 8,
    }
}

// Makes the header wait for a commit, and a catalog without documents and rules.
pub(crate) fn put_first(wal: &mut Wal, header: &Header) -> Result<(), StoreError>
    requires range { IsInRange header.now }
    requires runs { wal_ended wal.old ≡ false }
    requires none { pending wal.old ≡ [] }
    ensures follows { (log : List ℕ) → Follows wal.old log → Follows wal.new log }
    ensures ok { OnOk result (entry_pages (pending wal.new) ≡ first_pages header.now) }
    ensures some { OnOk result (pending wal.new ≢ []) }
    ensures stays { (length_of wal.new ≡ length_of wal.old) × (wal_ended wal.new ≡ wal_ended wal.old) }
    ensures refused { IfErr result (λ e. e ≡ StoreError.Memory) }
{
    let page = header_page(header);
    let Ok(_) = wal.put(0, &page) else {
        return Err(StoreError::Memory);
    };
    let catalog = chain_page(0, &[0; 8]);
    let Ok(_) = wal.put(1, &catalog) else {
        return Err(StoreError::Memory);
    };
    Ok(())
}
