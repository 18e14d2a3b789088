// What is worth a word and changes nothing.
use std::fs;
use std::rt::Files;

const CONFIG: &str = "turbo.json";

const UNREAD_CONFIG: &str = "turbo.jsonc";

/// Says that `turbo.jsonc` is not read, where it stands beside no `turbo.json`.
pub fn warn_of_unread_config<R: Files + Eprint>(rt: &R) {
    let read = fs::exists(rt, CONFIG).unwrap_or(true);
    let unread = fs::exists(rt, UNREAD_CONFIG).unwrap_or(false);
    if unread && !read {
        let _ = eprintln!(rt; "turbo: {UNREAD_CONFIG} is not read, only {CONFIG} is");
    }
}
