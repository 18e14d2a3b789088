// Files of which there are many, or that are long.
use crate::format::Many;
use anyhow::Result;
use rel_path::{Bytes, Files, RelPath};
use std::alloc::Global;

/// The byte of which a long text is made.
pub const FILL: u8 = b'x';

// The text with this number in the place of its marks.
fn numbered(alloc: Global, text: &str, number: u64) -> Result<String> {
    let next = number.saturating_add(1);
    let number = format!(in alloc; "{number}")?;
    let next = format!(in alloc; "{next}")?;
    let text = text.replace(alloc, "{n}", number.as_str())?;
    Ok(text.as_str().replace(alloc, "{next}", next.as_str())?)
}

// The bytes of the file with this number.
fn content_of(alloc: Global, many: &Many, number: u64) -> Result<Bytes> {
    let mut text = numbered(alloc, many.text.as_str(), number)?;
    for part in 0..many.parts {
        text.push_str(numbered(alloc, many.part.as_str(), part)?.as_str())?;
    }
    text.push_str(many.end.as_str())?;
    let mut bytes = text.into_bytes();
    bytes.extend_from_slice(vec![in alloc; FILL; many.fill]?.as_slice())?;
    Ok(Bytes::from_vec(bytes))
}

/// Adds the files.
pub fn push_many(alloc: Global, many: &Many, files: &mut Files) -> Result<()> {
    for number in 0..many.count {
        let path = numbered(alloc, many.path.as_str(), number)?;
        let path = RelPath::read(alloc, path.as_str())?;
        files.push((path, content_of(alloc, many, number)?))?;
    }
    Ok(())
}
