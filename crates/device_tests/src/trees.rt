// A tree and a sink in memory.
use crate::make::{files_of, has, is_absent, is_longer, names_in, read_at, remove_at, write_at};
use std::alloc::Global;
use std::process::Abort;
use std::test::Fail;
use tree_dev::{DevErr, MemSink, MemTree, Sink};

fn tree_of(alloc: Global, files: &[(&str, &str)], fails: &[u64]) -> Result<MemTree, DevErr> {
    let files = files_of(alloc, files)?;
    let fails = Vec::from_slice(alloc, fails)?;
    Ok(MemTree::new(alloc, files, fails))
}

#[test]
fn listings(rt: HostRuntime) -> Result<(), Fail> {
    let alloc = rt.alloc();
    let files = [
        ("b/z", ""),
        ("b", ""),
        ("b-c", ""),
        ("b/a/y", ""),
        ("b/a", ""),
        ("b/a/x", ""),
        ("é", ""),
        ("b/z", "again"),
    ];
    let mut tree = tree_of(alloc, &files, &[])?;
    for (folder, names) in [
        ("", "b b/ b-c é "),
        ("b", "a a/ z "),
        ("b/a", "x y "),
        ("b/a/x", ""),
        ("c", ""),
    ] {
        assert!(rt;
            names_in(alloc, &mut tree, folder)?.as_str() == names,
            "{folder}"
        );
    }
    Ok(())
}

fn change_files(rt: &impl Abort, alloc: Global, tree: &mut MemTree) -> Result<(), DevErr> {
    assert!(rt; has(alloc, tree, "a", "one")?);
    assert!(rt; is_longer(alloc, tree, "a", 2)?);
    assert!(rt; is_absent(alloc, tree, "b")?);
    write_at(alloc, tree, "a", "four")?;
    write_at(alloc, tree, "d/e/f", "")?;
    assert!(rt; has(alloc, tree, "a", "four")?);
    assert!(rt; has(alloc, tree, "d/e/f", "")?);
    remove_at(alloc, tree, "a")?;
    remove_at(alloc, tree, "a")?;
    assert!(rt; is_absent(alloc, tree, "a")?);
    assert!(rt; has(alloc, tree, "b/c", "two")?);
    Ok(())
}

// Of a path that stands twice the first counts, and both are removed.
#[test]
fn files(rt: HostRuntime) -> Result<(), Fail> {
    let alloc = rt.alloc();
    let files = [("a", "one"), ("b/c", "two"), ("a", "three")];
    let mut tree = tree_of(alloc, &files, &[])?;
    change_files(&rt, alloc, &mut tree)?;
    assert_eq!(rt; tree.files().as_slice().len(), 2);
    Ok(())
}

fn fail_in_turn(rt: &impl Abort, alloc: Global, tree: &mut MemTree) -> Result<(), DevErr> {
    assert!(rt; matches!(read_at(alloc, tree, "a", 9), Err(DevErr::Failed)));
    assert!(rt; has(alloc, tree, "a", "one")?);
    assert!(rt; write_at(alloc, tree, "a", "two") == Err(DevErr::Failed));
    assert!(rt; remove_at(alloc, tree, "a") == Err(DevErr::Failed));
    assert!(rt; has(alloc, tree, "a", "one")?);
    Ok(())
}

// The calls 0, 2 and 3 fail, and change nothing.
#[test]
fn failing_calls(rt: HostRuntime) -> Result<(), Fail> {
    let alloc = rt.alloc();
    let mut tree = tree_of(alloc, &[("a", "one")], &[3, 0, 2])?;
    fail_in_turn(&rt, alloc, &mut tree)?;
    Ok(())
}

#[test]
fn sink(rt: HostRuntime) -> Result<(), Fail> {
    let alloc = rt.alloc();
    let mut sink = MemSink::new(alloc, Vec::from_slice(alloc, &[1])?);
    sink.put(alloc, b"ab")?;
    assert!(rt; sink.put(alloc, b"cd") == Err(DevErr::Failed));
    sink.put(alloc, b"ef")?;
    assert!(rt; sink.written() == b"abef".as_slice());
    Ok(())
}
