// The texts that a batch is read from.
use crate::failure::Failure;
use std::alloc::{AllocError, Global};
use std::{fs, io};

// The name by which a desk is told of a batch.
pub(crate) fn batch_name(path: Option<&str>) -> &str {
    path.unwrap_or("standard input")
}

// Where a readings file is looked for: in the batch file's own folder, or in the current one where there is no batch file. A name
// that begins with a slash says the whole of it.
pub(crate) fn beside(heap: Global, batch: Option<&str>, file: &str) -> Result<String, AllocError> {
    let folder = batch.and_then(|path| path.rsplit_once('/'));
    match folder {
        Some((folder, _)) if !file.starts_with('/') => format!(in heap; "{folder}/{file}"),
        _ => String::from_str(heap, file),
    }
}

// A text without the byte order mark that it may begin with.
pub(crate) fn unmarked(text: &str) -> &str {
    text.strip_prefix('\u{feff}').unwrap_or(text)
}

// The batch's text, from its file or from standard input.
pub(crate) fn read_source(rt: &HostRuntime, path: Option<&str>) -> Result<String, Failure> {
    let text = match path {
        Some(path) => fs::read_to_string(rt, path),
        None => io::read_to_string(rt.alloc(), rt.stdin()),
    };
    text.map_err(|error| {
        Failure::said(rt.alloc(), format_args!("{}: {error}", batch_name(path)))
    })
}
