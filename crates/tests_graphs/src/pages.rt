//! A list kept by pages, by hand.

ghost use Rattle.std.specs.Prelude.{◌≡◌, length};

use sbpl_pages::Paged;
use std::test::Fail;

/// What stands at places of its three pages.
fn seen(list: &Paged<u64>) -> [u64; 4]
    requires length { length list.now ≡ 600 }
{
    [list.get(0), list.get(255), list.get(256), list.get(599)]
}

/// Writes to the first page and to the last, and then to all, and answers whether each place has what was written last.
fn keeps_what_is_written(list: &mut Paged<u64>) -> bool
    requires length { length list.old ≡ 600 }
{
    let initial = seen(list);
    list.set(599, 1);
    list.set(0, 2);
    let written = seen(list);
    list.fill(3);
    let filled = seen(list);
    list.set(256, 4);
    initial == [7, 7, 7, 7]
        && written == [2, 7, 7, 1]
        && filled == [3, 3, 3, 3]
        && seen(list) == [3, 3, 4, 3]
}

#[test]
fn pages_keep_a_list(rt: HostRuntime) -> Result<(), Fail> {
    let mut list = Paged::new(rt.alloc(), 600, 7)?;
    let keeps = keeps_what_is_written(&mut list);
    drop(list);
    assert!(rt; keeps);
    Ok(())
}
