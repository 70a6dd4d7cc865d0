// What stands in a row after some writes.
use crate::SparseWords;
use std::test::Fail;

#[test]
fn words_are_written(rt: HostRuntime) -> Result<(), Fail> {
    let Ok(mut words) = SparseWords::new(rt.alloc(), 1000) else {
        return Err(Fail::new("no memory"));
    };
    assert_eq!(rt; words.get(999), 0);
    words.set(999, 7);
    words.set(512, 8);
    words.set(767, 9);
    words.set(0, u64::MAX);
    assert_eq!(rt; words.get(0), u64::MAX);
    assert_eq!(rt; words.get(256), 0);
    assert_eq!(rt; words.get(512), 8);
    assert_eq!(rt; words.get(513), 0);
    assert_eq!(rt; words.get(767), 9);
    assert_eq!(rt; words.get(768), 0);
    assert_eq!(rt; words.get(999), 7);
    words.clear();
    assert_eq!(rt; words.get(999), 0);
    words.set(998, 6);
    assert_eq!(rt; words.get(998), 6);
    assert_eq!(rt; words.get(999), 0);
    assert_eq!(rt; words.get(0), 0);
    Ok(())
}
