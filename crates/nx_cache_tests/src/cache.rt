// A cache of three pages.
use nx_cache::{Address, PageCache};
use std::process::Abort;
use std::test::Fail;

// A page of nothing but that byte.
fn page(byte: u8) -> [u8; 8192] {
    [byte; 8192]
}

// Of pages with an even number the address is in the pages area, of others in the log, two by two at one offset.
fn address(number: u32) -> Address {
    let at = (number / 2) as u64;
    if number % 2 == 0 {
        Address::InPages(at)
    } else {
        Address::InLog(at)
    }
}

// Which byte the listed page begins and ends with, or 255 where it isn't listed. The page is the first then.
fn byte(cache: &mut PageCache, number: u32) -> u8 {
    match cache.get(address(number)) {
        Some(found) if found.bytes[0] == found.bytes[8191] => found.bytes[0],
        Some(_) => 254,
        None => 255,
    }
}

// The bytes of the pages 0 to 5, looked at in that order.
fn expect(rt: &impl Abort, cache: &mut PageCache, bytes: [u8; 6]) {
    for (number, expected) in bytes.iter().enumerate() {
        assert!(rt; byte(cache, number as u32) == *expected, "page {number}");
    }
}

#[test]
fn the_least_recently_used_goes(rt: HostRuntime) -> Result<(), Fail> {
    let mut cache = PageCache::new(rt.alloc(), 3)?;
    expect(&rt, &mut cache, [255, 255, 255, 255, 255, 255]);
    cache.put(address(0), &page(10))?;
    cache.put(address(1), &page(11))?;
    cache.put(address(2), &page(12))?;
    // Page 0 is looked at, so page 1 goes.
    assert!(rt; byte(&mut cache, 0) == 10);
    cache.put(address(3), &page(13))?;
    expect(&rt, &mut cache, [10, 255, 12, 13, 255, 255]);
    Ok(())
}

#[test]
fn a_page_is_put_in_place_of_itself(rt: HostRuntime) -> Result<(), Fail> {
    let mut cache = PageCache::new(rt.alloc(), 3)?;
    cache.put(address(0), &page(10))?;
    cache.put(address(1), &page(11))?;
    cache.put(address(2), &page(12))?;
    // Page 0 is put again, so none goes, and page 1 is the next to go.
    cache.put(address(0), &page(20))?;
    cache.put(address(4), &page(14))?;
    expect(&rt, &mut cache, [20, 255, 12, 255, 14, 255]);
    Ok(())
}

#[test]
fn all_pages_are_forgotten(rt: HostRuntime) -> Result<(), Fail> {
    let mut cache = PageCache::new(rt.alloc(), 3)?;
    cache.put(address(0), &page(10))?;
    cache.put(address(5), &page(15))?;
    cache.forget();
    expect(&rt, &mut cache, [255, 255, 255, 255, 255, 255]);
    cache.put(address(5), &page(25))?;
    expect(&rt, &mut cache, [255, 255, 255, 255, 255, 25]);
    Ok(())
}

// More pages than a cache of the store's size holds: the last 256 are there.
#[test]
fn many_pages(rt: HostRuntime) -> Result<(), Fail> {
    let mut cache = PageCache::new(rt.alloc(), 256)?;
    for number in 0..1_000u32 {
        cache.put(address(number), &page((number % 250) as u8))?;
    }
    for number in 0..1_000u32 {
        let expected = if number < 744 {
            255
        } else {
            (number % 250) as u8
        };
        assert!(rt; byte(&mut cache, number) == expected, "page {number}");
    }
    Ok(())
}
