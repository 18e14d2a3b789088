// The system's own world, with real files and commands.
ghost use Rattle.spawn_dev.specs.Spawn.{IsIdle};
ghost use Rattle.device_tests.specs.Quiet.{IsQuiet};

use crate::make::{
    has, is_absent, is_longer, is_run, names_in, read_at, remove_at, run_scripts, write_at,
};
use os_edge::OsWorld;
use spawn_dev::Spawner;
use std::alloc::Global;
use std::process::Abort;
use std::test::Fail;
use std::{env, fs, process};
use tree_dev::{DevErr, Tree};

/// Goes into a new folder below that for temporary files.
pub fn enter(rt: &HostRuntime, name: &str) -> Result<String, Fail> {
    let number = process::id(rt.process());
    let parent = env::temp_dir(rt)?;
    let folder = format!(in rt.alloc(); "{}/turbo-{name}-{number}", parent.as_str())?;
    fs::create_dir_all(rt, folder.as_str())?;
    env::set_current_dir(rt, folder.as_str())?;
    Ok(folder)
}

/// Removes the folder with all in it.
pub fn leave(rt: &HostRuntime, folder: String) -> Result<(), Fail> {
    env::set_current_dir(rt, "/")?;
    fs::remove_dir_all(rt, folder.as_str())?;
    Ok(())
}

fn is_made(alloc: Global, rt: &HostRuntime, script: &str) -> Result<bool, DevErr> {
    let mut world = OsWorld::new(rt, alloc);
    let made = is_run(alloc, &mut world, &[script, "#", ""], 0, "")?;
    Ok(made)
}

#[test]
fn listings(rt: HostRuntime) -> Result<(), Fail> {
    let alloc = rt.alloc();
    let folder = enter(&rt, "listings")?;
    let made =
        "mkdir -p b/c n; touch b/z b/a b-c; mkfifo b/pipe; ln -s a b/link; ln -s b folder; touch \"$(printf 'n/\\377')\"";
    assert!(rt; is_made(alloc, &rt, made)?);
    let mut world = OsWorld::new(&rt, alloc);
    for (folder, names) in [
        ("", "b/ b-c n/ "),
        ("b", "a c/ z "),
        ("b/c", ""),
        ("b/a", ""),
        ("d", ""),
    ] {
        assert!(rt;
            names_in(alloc, &mut world, folder)?.as_str() == names,
            "{folder}"
        );
    }
    assert!(rt; matches!(names_in(alloc, &mut world, "n"), Err(DevErr::Failed)));
    leave(&rt, folder)
}

fn change_files<T: Tree>(rt: &impl Abort, alloc: Global, tree: &mut T) -> Result<(), DevErr>
    requires { IsQuiet (T.state tree.old) }
{
    write_at(alloc, tree, "b/file", "one")?;
    assert!(rt; has(alloc, tree, "b/file", "one")?);
    assert!(rt; is_longer(alloc, tree, "b/file", 2)?);
    assert!(rt; is_absent(alloc, tree, "b/file/x")?);
    assert!(rt; is_absent(alloc, tree, "b/none")?);
    assert!(rt; has(alloc, tree, "a/link", "one")?);
    write_at(alloc, tree, "a/link", "two")?;
    assert!(rt; has(alloc, tree, "a/link", "two")?);
    assert!(rt; has(alloc, tree, "b/file", "one")?);
    remove_at(alloc, tree, "b/file")?;
    remove_at(alloc, tree, "b/file")?;
    assert!(rt; is_absent(alloc, tree, "b/file")?);
    Ok(())
}

// A link is read through, and replaced by a write.
#[test]
fn files(rt: HostRuntime) -> Result<(), Fail> {
    let alloc = rt.alloc();
    let folder = enter(&rt, "files")?;
    assert!(rt; is_made(alloc, &rt, "mkdir a; ln -s ../b/file a/link")?);
    change_files(&rt, alloc, &mut OsWorld::new(&rt, alloc))?;
    leave(&rt, folder)
}

fn change_folders<T: Tree>(rt: &impl Abort, alloc: Global, tree: &mut T) -> Result<(), DevErr>
    requires { IsQuiet (T.state tree.old) }
{
    remove_at(alloc, tree, "a")?;
    assert!(rt; matches!(read_at(alloc, tree, "a", 9), Err(DevErr::Failed)));
    write_at(alloc, tree, "a", "one")?;
    assert!(rt; has(alloc, tree, "a", "one")?);
    assert!(rt; write_at(alloc, tree, "a/x", "") == Err(DevErr::Failed));
    assert!(rt; write_at(alloc, tree, "e", "two") == Err(DevErr::Failed));
    assert!(rt; names_in(alloc, tree, "e")?.as_str() == "f/ g ");
    assert!(rt; matches!(read_at(alloc, tree, "pipe", 9), Err(DevErr::Failed)));
    Ok(())
}

// Folders that hold no file give way, and a pipe is not opened.
#[test]
fn folders(rt: HostRuntime) -> Result<(), Fail> {
    let alloc = rt.alloc();
    let folder = enter(&rt, "folders")?;
    assert!(rt; is_made(alloc, &rt, "mkdir -p a/b/c a/d e/f; touch e/g; mkfifo pipe")?);
    change_folders(&rt, alloc, &mut OsWorld::new(&rt, alloc))?;
    leave(&rt, folder)
}

fn run_each<W: Spawner>(rt: &impl Abort, alloc: Global, world: &mut W) -> Result<(), DevErr>
    requires { IsIdle (W.runs world.old) }
{
    let names = "env | cut -d= -f1 | grep -vxE 'PWD|OLDPWD|SHLVL|_' | sort; echo $A$B #";
    assert!(rt; is_run(alloc, world, &["exit 3 #"], 3, "")?);
    assert!(rt; is_run(alloc, world, &["kill -9 $PPID #"], 255, "")?);
    assert!(rt;
        is_run(
            alloc,
            world,
            &["echo a; echo b >&2; echo c #"],
            0,
            "a\nb\nc\n"
        )?
    );
    assert!(rt; is_run(alloc, world, &["cat; echo end #"], 0, "end\n")?);
    assert!(rt; is_run(alloc, world, &[names], 0, "A\nB\nPATH\n13\n")?);
    assert!(rt;
        is_run(
            alloc,
            world,
            &["echo a", "printf '%s\\n'", ""],
            0,
            "a\nit's\n$A *\n"
        )?
    );
    assert!(rt; is_run(alloc, world, &["echo a", "exit 4 #", "echo b"], 4, "a\n")?);
    Ok(())
}

#[test]
fn commands(rt: HostRuntime) -> Result<(), Fail> {
    let alloc = rt.alloc();
    run_each(&rt, alloc, &mut OsWorld::new(&rt, alloc))?;
    Ok(())
}

// Programs of the packages above a folder are found, nearest first, and one in no folder ends with 127.
#[test]
fn programs(rt: HostRuntime) -> Result<(), Fail> {
    let alloc = rt.alloc();
    let folder = enter(&rt, "programs")?;
    let made =
        "for p in . a; do mkdir -p $p/node_modules/.bin a/b; echo \"echo $p; pwd\" >$p/node_modules/.bin/tool; chmod +x $p/node_modules/.bin/tool; done";
    assert!(rt; is_made(alloc, &rt, made)?);
    let mut world = OsWorld::new(&rt, alloc);
    let (status, log) = run_scripts(alloc, &mut world, "a/b", &["tool"], &[])?;
    let wanted = format!(in alloc; "a\n{folder}/a/b\n")?;
    assert!(rt; status == 0 && log.as_slice() == wanted.as_bytes());
    let (status, _) = run_scripts(alloc, &mut world, "no", &["tool"], &[])?;
    assert_eq!(rt; status, 127);
    leave(&rt, folder)
}

// A log without an end is a fault, and the command ends.
#[test]
fn long_log(rt: HostRuntime) -> Result<(), Fail> {
    let alloc = rt.alloc();
    let mut world = OsWorld::new(&rt, alloc);
    assert!(rt;
        matches!(
            is_run(alloc, &mut world, &["yes #"], 0, ""),
            Err(DevErr::Failed)
        )
    );
    assert!(rt; world.is_idle());
    Ok(())
}
