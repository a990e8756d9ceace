// A session over a new store in memory.
use crate::documents::{SMALL, load};
use crate::stores::words_of;
use nx_front::Status;
use nx_memory_session::answer_script;
use nx_tree::Bytes;
use std::test::Fail;

#[test]
fn a_new_store_answers_a_script(rt: HostRuntime) -> Result<(), Fail> {
    let alloc = rt.alloc();
    let words = words_of(alloc, &["s", "init", "16"])?;
    let mut script = load(alloc, b"e", SMALL)?;
    script.extend_from_slice(b"names\ncheckpoint\n")?;
    let script = Bytes::from_slice(alloc, script.as_slice())?;
    let session = answer_script(&rt, alloc, &words, script, 16_777_216)?;
    assert_eq!(rt; session.status, Status::Done);
    assert!(rt; !session.host.is_full());
    assert_eq!(rt;
        session.host.output(),
        b"ok\nok 4 1\ndoc e 4\n.\nok\n".as_slice()
    );
    Ok(())
}
