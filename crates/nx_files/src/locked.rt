// A file that was locked and looked at.
ghost use Rattle.std.specs.Prelude.{◌≡◌, length, IfOk, IfSome, IsTrue};
ghost use Rattle.std.specs.Option.{ForSome};
ghost use Rattle.nx_files.specs.Sight.{MayBeStream};

use crate::{Sight, StoreFile, Streams};
use nx_host::Failed;

// A file that no other open of it may use until this one is closed, and what was seen of it since.
#[derive(Drop)]
pub struct LockedFile<T: StoreFile> {
    pub file: T,
    pub sight: Sight,
    ghost locked: { IsTrue (T.is_locked file) },
    ghost seen: { ForSome (T.identity file) (λ told. sight.identity ≡ told) },
}

// Locks the file and looks at it. What isn't a regular file, has a second name, or stands behind the input or
// the output, is none of a store.
pub fn admit<T: StoreFile + Drop>(mut file: T, streams: &Streams) -> Result<LockedFile<T>, Failed>
    ensures path { IfOk result (λ locked. T.path locked.file ≡ T.path file) }
    ensures identity { IfOk result (λ locked. T.identity locked.file ≡ T.identity file) }
    ensures held { IfOk result (λ locked. T.holds locked.file ≡ T.holds file) }
    ensures length { IfOk result (λ locked. IfSome (T.holds locked.file) (λ now. locked.sight.length ≡ length now)) }
    ensures no_stream { IfOk result (λ locked. IfSome (T.identity locked.file) (λ told. ¬ MayBeStream streams.now told)) }
{
    file.lock()?;
    let sight = file.look()?;
    if !sight.is_file || sight.links > 1 || streams.may_have(sight.identity) {
        return Err(Failed);
    }
    Ok(LockedFile { file, sight })
}
