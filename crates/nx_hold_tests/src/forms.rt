// Pieces that are held inline and that aren't, in both directions.
use crate::made::{Form, check, made};
use crate::stores::{ALL_FREE, Store, place_of};
use nx_piece::Proxy;
use nx_records::{Rid, StoreError};
use std::process::Abort;
use std::test::Fail;

// On both sides of each limit: where a record is full, and where a chain page is.
const INLINE: [Form; 4] = [
    Form {
        slots: 0,
        proxies: 0,
        page: 0,
    },
    Form {
        slots: 200,
        proxies: 254,
        page: 70_000,
    },
    Form {
        slots: 248,
        proxies: 768,
        page: 1,
    },
    Form {
        slots: 0,
        proxies: 1_017,
        page: 2,
    },
];

const ON_TWO_PAGES: Form = Form {
    slots: 3,
    proxies: 1_024,
    page: 4_294_967_000,
};

const CHAINED: [Form; 5] = [
    Form {
        slots: 248,
        proxies: 769,
        page: 1,
    },
    Form {
        slots: 0,
        proxies: 1_018,
        page: 2,
    },
    Form {
        slots: 3,
        proxies: 1_023,
        page: 3,
    },
    ON_TWO_PAGES,
    Form {
        slots: 100,
        proxies: 2_100,
        page: 4,
    },
];

/// The piece of this form is added.
pub fn add(rt: &impl Abort, store: &mut Store, form: Form) -> Result<Proxy, StoreError> {
    match made(rt, store.alloc(), form) {
        Ok(piece) => store.add(&piece),
        Err(_) => Err(StoreError::Memory),
    }
}

/// The piece of this form comes in the place of the one there.
pub fn update(
    rt: &impl Abort,
    store: &mut Store,
    place: Rid,
    form: Form,
) -> Result<Proxy, StoreError> {
    match made(rt, store.alloc(), form) {
        Ok(piece) => store.update(place, &piece),
        Err(_) => Err(StoreError::Memory),
    }
}

/// The piece there is of this form.
pub fn check_form(
    rt: &impl Abort,
    store: &mut Store,
    place: Rid,
    form: Form,
) -> Result<(), StoreError> {
    let piece = store.read(place)?;
    check(rt, &piece, form);
    Ok(())
}

// The piece there is of this form, and alone behind a commit.
fn check_alone(rt: &impl Abort, store: &mut Store, proxy: Proxy, form: Form) -> Result<(), Fail> {
    check_form(rt, store, place_of(proxy), form)?;
    let free = (ALL_FREE - 1).saturating_sub(form.chain_pages());
    store.commit_with(rt, free)
}

// Adds one piece, replaces it by another and takes that away, and looks at the free pages each time.
fn go(rt: &impl Abort, store: &mut Store, from: Form, to: Form) -> Result<(), Fail> {
    let first = add(rt, store, from)?;
    assert_eq!(rt; first.roots, 1);
    check_alone(rt, store, first, from)?;
    let second = update(rt, store, place_of(first), to)?;
    check_alone(rt, store, second, to)?;
    store.remove(place_of(second))?;
    store.commit_with(rt, ALL_FREE)
}

// From this form to each that isn't inline, and back.
fn go_with_chained(rt: &impl Abort, store: &mut Store, inline: Form) -> Result<(), Fail> {
    for chained in CHAINED {
        go(rt, store, inline, chained)?;
        go(rt, store, chained, inline)?;
    }
    Ok(())
}

#[test]
fn both_ways(rt: HostRuntime) -> Result<(), Fail> {
    let mut store = Store::create(rt.alloc())?;
    for inline in INLINE {
        go_with_chained(&rt, &mut store, inline)?;
    }
    Ok(())
}
