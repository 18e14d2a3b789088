// The file of a store, with real files.
use crate::system::{enter, leave};
use os_edge::{OsStore, STORE_PATH};
use std::alloc::Global;
use std::fs;
use std::os::unix::fs::symlink;
use std::test::Fail;
use store_dev::{StoreDevice, StoreErr};

const PATH: &str = ".turbo/store.turb";

// Whether the four bytes from there on are these.
fn is_read(store: &mut OsStore<&HostRuntime>, at: u64, wanted: [u8; 4]) -> Result<bool, StoreErr> {
    let mut found = [0; 4];
    store.read_at(at, &mut found)?;
    Ok(found == wanted)
}

fn write_twice(alloc: Global, store: &mut OsStore<&HostRuntime>) -> Result<(), StoreErr> {
    store.write_at(alloc, 0, b"abcdef")?;
    store.write_at(alloc, 4, b"EFGH")?;
    store.sync()
}

// Whether each of the four calls fails.
fn fails(alloc: Global, store: &mut OsStore<&HostRuntime>) -> bool {
    let mut found = [0; 4];
    store.len() == Err(StoreErr::Failed)
        && store.read_at(0, &mut found) == Err(StoreErr::Failed)
        && store.write_at(alloc, 0, b"x") == Err(StoreErr::Failed)
        && store.sync() == Err(StoreErr::Failed)
}

// The file is made at its first use, and a second device finds what the first one wrote.
#[test]
fn written_and_read(rt: HostRuntime) -> Result<(), Fail> {
    let alloc = rt.alloc();
    let folder = enter(&rt, "store")?;
    let mut store = OsStore::at(&rt, STORE_PATH);
    assert!(rt; !fs::exists(&rt, ".turbo")?);
    assert_eq!(rt; store.len()?, 0);
    assert!(rt; fs::read(&rt, PATH)?.is_empty());
    write_twice(alloc, &mut store)?;
    assert!(rt; fs::read(&rt, PATH)?.as_slice() == b"abcdEFGH".as_slice());
    assert!(rt; is_read(&mut store, 4, *b"EFGH")?);
    drop(store);
    let mut second = OsStore::at(&rt, STORE_PATH);
    assert!(rt; is_read(&mut second, 2, *b"cdEF")?);
    assert_eq!(rt; second.len()?, 8);
    leave(&rt, folder)
}

// A file that stands keeps its bytes. A read past its end is a fault, after which it is read as before.
#[test]
fn kept_whole(rt: HostRuntime) -> Result<(), Fail> {
    let folder = enter(&rt, "kept")?;
    fs::create_dir_all(&rt, ".turbo")?;
    fs::write(&rt, PATH, b"12345")?;
    let mut store = OsStore::at(&rt, STORE_PATH);
    assert!(rt; is_read(&mut store, 3, *b"45__") == Err(StoreErr::Failed));
    assert!(rt; is_read(&mut store, 1, *b"2345")?);
    assert_eq!(rt; store.len()?, 5);
    assert!(rt; fs::read(&rt, PATH)?.as_slice() == b"12345".as_slice());
    leave(&rt, folder)
}

// A folder at the path and a file in the place of its folder are faults of each call. Once they are gone, the
// same device makes the file.
#[test]
fn places_that_fail(rt: HostRuntime) -> Result<(), Fail> {
    let alloc = rt.alloc();
    let folder = enter(&rt, "places")?;
    let mut store = OsStore::at(&rt, STORE_PATH);
    fs::create_dir_all(&rt, PATH)?;
    assert!(rt; fails(alloc, &mut store));
    fs::remove_dir_all(&rt, ".turbo")?;
    fs::write(&rt, ".turbo", b"file")?;
    assert!(rt; fails(alloc, &mut store));
    assert!(rt; fs::read(&rt, ".turbo")?.as_slice() == b"file".as_slice());
    fs::remove_file(&rt, ".turbo")?;
    write_twice(alloc, &mut store)?;
    assert!(rt; is_read(&mut store, 2, *b"cdEF")?);
    leave(&rt, folder)
}

// What is no regular file is never written to.
#[test]
fn a_device_in_its_place(rt: HostRuntime) -> Result<(), Fail> {
    let folder = enter(&rt, "device")?;
    fs::create_dir_all(&rt, ".turbo")?;
    symlink(&rt, "/dev/null", PATH)?;
    assert!(rt; fails(rt.alloc(), &mut OsStore::at(&rt, STORE_PATH)));
    leave(&rt, folder)
}

// A file of the system that can be opened and locked, and that the system refuses to sync: a `sync` that asks
// nothing of the system would answer Ok.
#[test]
fn synced_by_the_system(rt: HostRuntime) -> Result<(), Fail> {
    let folder = enter(&rt, "synced")?;
    fs::create_dir_all(&rt, ".turbo")?;
    symlink(&rt, "/proc/self/comm", PATH)?;
    let mut store = OsStore::at(&rt, STORE_PATH);
    assert_eq!(rt; store.len()?, 0);
    assert!(rt; store.sync() == Err(StoreErr::Failed));
    leave(&rt, folder)
}

// While one device holds the file, another one is an empty store that is read as it is written, and its bytes stay
// out of the file. Once the first is gone, the file is whole and free.
#[test]
fn held_by_another(rt: HostRuntime) -> Result<(), Fail> {
    let alloc = rt.alloc();
    let folder = enter(&rt, "held")?;
    let mut first = OsStore::at(&rt, STORE_PATH);
    write_twice(alloc, &mut first)?;
    let mut second = OsStore::at(&rt, STORE_PATH);
    assert_eq!(rt; second.len()?, 0);
    second.write_at(alloc, 2, b"xy")?;
    assert!(rt; is_read(&mut second, 0, *b"\0\0xy")?);
    assert!(rt; is_read(&mut second, 1, *b"\0xy_") == Err(StoreErr::Failed));
    assert_eq!(rt; second.len()?, 4);
    second.sync()?;
    drop(first);
    assert!(rt; fs::read(&rt, PATH)?.as_slice() == b"abcdEFGH".as_slice());
    assert!(rt; is_read(&mut OsStore::at(&rt, STORE_PATH), 4, *b"EFGH")?);
    leave(&rt, folder)
}

// Whether each call on a device that is to be alone fails while another one holds the file.
fn fails_beside(rt: &HostRuntime) -> Result<bool, StoreErr> {
    let _first = OsStore::locked(rt, STORE_PATH, 0)?;
    Ok(fails(rt.alloc(), &mut OsStore::alone(rt, STORE_PATH)))
}

// Where nobody holds the file, none fails.
#[test]
fn alone(rt: HostRuntime) -> Result<(), Fail> {
    let folder = enter(&rt, "alone")?;
    assert!(rt; fails_beside(&rt)?);
    write_twice(rt.alloc(), &mut OsStore::alone(&rt, STORE_PATH))?;
    assert!(rt; fs::read(&rt, PATH)?.as_slice() == b"abcdEFGH".as_slice());
    leave(&rt, folder)
}

// The folders on the way to the file are made. The empty path is no file.
#[test]
fn at_any_path(rt: HostRuntime) -> Result<(), Fail> {
    let alloc = rt.alloc();
    let folder = enter(&rt, "anywhere")?;
    write_twice(alloc, &mut OsStore::at(&rt, "caches/all/store.turb"))?;
    let mut second = OsStore::locked(&rt, "caches/all/store.turb", 7)?;
    assert!(rt; is_read(&mut second, 4, *b"EFGH")?);
    assert_eq!(rt; second.faults(), 7);
    assert!(rt; fails(alloc, &mut OsStore::at(&rt, "")));
    leave(&rt, folder)
}
