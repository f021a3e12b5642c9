//! The files that paths name.
use crate::number::number;
use gd_outside::Path;
use gd_syntax::{Script, Text};
use indexmap::IndexMap;
use no_memory::NoMemory;
use std::alloc::Global;

// What a path from the folder of the project begins with.
const PREFIX: &[u8] = b"res://";

// The parts that go up, and stay.
const UP: &[u8] = b"..";

const HERE: &[u8] = b".";

/// The places of the files by the bytes of their paths.
pub type Files = IndexMap<Vec<u8>, u32>;

/// The places of these files. Of two with one path the first counts.
pub fn places_of(alloc: Global, scripts: &[(Path, Script)]) -> Result<Files, NoMemory> {
    let mut files = IndexMap::new(alloc);
    for (place, script) in scripts.iter().enumerate() {
        let bytes = script.0.bytes();
        if !files.contains_key(bytes) {
            files.insert(Vec::from_slice(alloc, bytes)?, number(place)?)?;
        }
    }
    Ok(files)
}

/// The place of the file that a path names which stands in the file with the path `file`.
pub fn file_named(
    alloc: Global,
    files: &Files,
    file: &[u8],
    path: &Text,
) -> Result<Option<u32>, NoMemory> {
    let bytes = path.to_utf8(alloc)?;
    match led_to(alloc, file, &bytes)? {
        Some(parts) => Ok(files.get(path_of(alloc, &parts)?.as_slice()).copied()),
        None => Ok(None),
    }
}

// The parts that a path leads to, and none where it leaves the project.
fn led_to<'a>(
    alloc: Global,
    file: &'a [u8],
    bytes: &'a [u8],
) -> Result<Option<Vec<&'a [u8]>>, NoMemory> {
    match bytes.strip_prefix(PREFIX) {
        Some(rest) => go(Vec::new(alloc), rest),
        None => go(folder_of(alloc, file)?, bytes),
    }
}

// The folder, and then the parts of a path one by one.
fn go<'a>(mut at: Vec<&'a [u8]>, path: &'a [u8]) -> Result<Option<Vec<&'a [u8]>>, NoMemory> {
    for part in path.split(|b| *b == b'/') {
        if !step(&mut at, part)? {
            return Ok(None);
        }
    }
    Ok(Some(at))
}

// Follows one part. Answers whether that stays in the project.
fn step<'a>(at: &mut Vec<&'a [u8]>, part: &'a [u8]) -> Result<bool, NoMemory> {
    if part == UP {
        return Ok(at.pop().is_some());
    }
    if part != HERE {
        at.push(part)?;
    }
    Ok(true)
}

// All parts of a path but the last.
fn folder_of(alloc: Global, file: &[u8]) -> Result<Vec<&[u8]>, NoMemory> {
    let mut parts = Vec::new(alloc);
    for part in file.split(|b| *b == b'/') {
        parts.push(part)?;
    }
    let _ = parts.pop();
    Ok(parts)
}

// The path of these parts.
fn path_of(alloc: Global, parts: &[&[u8]]) -> Result<Vec<u8>, NoMemory> {
    let mut path = Vec::new(alloc);
    for (place, part) in parts.iter().enumerate() {
        if place > 0 {
            path.push(b'/')?;
        }
        path.extend_from_slice(part)?;
    }
    Ok(path)
}
