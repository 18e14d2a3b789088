// Folders of tests, and what stands in them.
use std::test::Fail;
use std::{env, fs, process};

/// Goes into a new folder below that for temporary files, in which these files stand.
pub fn enter(rt: &HostRuntime, name: &str, files: &[(&str, &str)]) -> Result<String, Fail> {
    let number = process::id(rt.process());
    let parent = env::temp_dir(rt)?;
    let folder = format!(in rt.alloc(); "{}/turbo-{name}-{number}", parent.as_str())?;
    fs::create_dir_all(rt, folder.as_str())?;
    env::set_current_dir(rt, folder.as_str())?;
    for (path, text) in files {
        put(rt, path, text)?;
    }
    Ok(folder)
}

/// Removes the folder with all in it.
pub fn leave(rt: &HostRuntime, folder: String) -> Result<(), Fail> {
    env::set_current_dir(rt, "/")?;
    fs::remove_dir_all(rt, folder.as_str())?;
    Ok(())
}

/// Writes a file, and makes the folders above it.
pub fn put(rt: &HostRuntime, path: &str, text: &str) -> Result<(), Fail> {
    if let Some((folder, _)) = path.rsplit_once('/') {
        fs::create_dir_all(rt, folder)?;
    }
    fs::write(rt, path, text)?;
    Ok(())
}

/// The text of a file, and `-` where none stands.
pub fn text_at(rt: &HostRuntime, path: &str) -> Result<String, Fail> {
    if !fs::exists(rt, path)? {
        return Ok(String::from_str(rt.alloc(), "-")?);
    }
    Ok(fs::read_to_string(rt, path)?)
}

/// The page without the digits of fingerprints and the words before them.
pub fn undigited(rt: &HostRuntime, page: &str) -> Result<String, Fail> {
    let mut shown = String::new(rt.alloc());
    for line in page.lines() {
        shown.push_str(without_digits(line))?;
        shown.push('\n')?;
    }
    Ok(shown)
}

fn without_digits(line: &str) -> &str {
    for end in [" executing ", " replaying logs "] {
        if let Some((front, _)) = line.split_once(end) {
            return front;
        }
    }
    line
}
