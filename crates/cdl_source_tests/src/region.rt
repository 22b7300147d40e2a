// Windows of a region.
use cdl_pool::Region;
use std::test::Fail;

#[test]
fn windows_lie_apart(rt: HostRuntime) -> Result<(), Fail> {
    let mut region = Region::new(rt.alloc(), 5)?;
    for (len, place, word) in [
        (2, Some(0), 4),
        (0, Some(2), 5),
        (4, None, 6),
        (3, Some(2), 7),
        (0, Some(5), 8),
        (1, None, 9),
    ] {
        match region.carve(len) {
            Some(window) => {
                assert_eq!(rt; place, Some(window.place()), "{len} words");
                assert_eq!(rt; window.len(), len, "{len} words");
                assert_eq!(rt; region.words(&window).len(), len, "{len} words");
                region.words_mut(&window).fill(word);
            }
            None => assert_eq!(rt; place, None, "{len} words"),
        }
    }
    assert_eq!(rt; region.all(), [4, 4, 7, 7, 7].as_slice());
    region.all_mut().fill(1);
    assert_eq!(rt; region.all(), [1; 5].as_slice());
    Ok(())
}
