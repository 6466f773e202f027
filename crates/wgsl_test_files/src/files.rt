//! Files in memory that are rewritten.

use crate::ended::Ended;
use std::alloc::{AllocError, Global};
use std::collections::BTreeMap;
use std::test::Fail;
use wgsl_files::{FileError, MemoryStore, Mode, Rewritten, Store, rewrite};

const TEXTS: [(&str, &str); 4] = [("a", "x"), ("b", "x!"), ("c", "x\n"), ("d", "y")];

fn store(alloc: Global) -> Result<MemoryStore, AllocError> {
    let mut files = BTreeMap::new(alloc);
    for (path, text) in TEXTS {
        let bytes = Vec::from_slice(alloc, text.as_bytes())?;
        files.insert(String::from_str(alloc, path)?, bytes)?;
    }
    Ok(MemoryStore { files })
}

/// The text at a path, or nothing where there is no file.
fn text_at<'s>(store: &'s MemoryStore, path: &str) -> &'s [u8] {
    match store.files.get(path) {
        Some(text) => text.as_slice(),
        None => b"",
    }
}

#[test]
fn rewrites_files(rt: HostRuntime) -> Result<(), Fail> {
    let alloc = rt.alloc();
    let mut store = store(alloc)?;
    let changed = rewrite(alloc, &mut store, &Ended, "a", Mode::InPlace);
    assert!(rt; matches!(changed, Ok(Rewritten::Changed(_, _))));
    let refused = rewrite(alloc, &mut store, &Ended, "b", Mode::InPlace);
    assert!(rt; matches!(refused, Err(FileError::Refused(_))));
    let unchanged = rewrite(alloc, &mut store, &Ended, "c", Mode::InPlace);
    assert!(rt; matches!(unchanged, Ok(Rewritten::Unchanged)));
    let missing = rewrite(alloc, &mut store, &Ended, "none", Mode::InPlace);
    assert!(rt; matches!(missing, Err(FileError::Failed(_))));
    for (path, text) in [
        ("a", "x\n"),
        ("b", "x!"),
        ("c", "x\n"),
        ("d", "y"),
        ("none", ""),
    ] {
        assert!(rt; text_at(&store, path) == text.as_bytes(), "of {path}");
    }
    Ok(())
}

#[test]
fn writes_nothing_where_files_are_looked_at(rt: HostRuntime) -> Result<(), Fail> {
    let alloc = rt.alloc();
    let mut store = store(alloc)?;
    let Ok(Rewritten::Changed(before, after)) = rewrite(alloc, &mut store, &Ended, "a", Mode::Check)
    else {
        return Err(Fail::from("not changed"));
    };
    assert!(rt; before.as_slice() == b"x".as_slice() && after.as_slice() == b"x\n".as_slice());
    for (path, text) in TEXTS {
        assert!(rt; text_at(&store, path) == text.as_bytes(), "of {path}");
    }
    Ok(())
}

#[test]
fn writes_new_files_and_old_ones(rt: HostRuntime) -> Result<(), Fail> {
    let alloc = rt.alloc();
    let mut store = store(alloc)?;
    for path in ["a", "none"] {
        assert!(rt; store.write(alloc, path, b"z").is_ok(), "of {path}");
    }
    for (path, text) in [
        ("a", "z"),
        ("b", "x!"),
        ("c", "x\n"),
        ("d", "y"),
        ("none", "z"),
    ] {
        assert!(rt; text_at(&store, path) == text.as_bytes(), "of {path}");
    }
    Ok(())
}

/// Files without a text.
fn empty(alloc: Global, paths: &[&str]) -> Result<MemoryStore, AllocError> {
    let mut files = BTreeMap::new(alloc);
    for path in paths {
        files.insert(String::from_str(alloc, path)?, Vec::new(alloc))?;
    }
    Ok(MemoryStore { files })
}

#[test]
fn lists_files_of_folders(rt: HostRuntime) -> Result<(), Fail> {
    let alloc = rt.alloc();
    let store = empty(
        alloc,
        &[
            "/root.wgsl",
            "src/b/.git/d.wgsl",
            "src/b/c.wgsl",
            "src/.hidden.wgsl",
            "src/a.txt",
            "src/a.wgsl",
            "src.wgsl",
            "srcs/e.wgsl",
            "../up.wgsl",
        ],
    )?;
    for (named, listed) in [
        ("src", ["src/a.wgsl", "src/b/c.wgsl"].as_slice()),
        ("src/", ["src/a.wgsl", "src/b/c.wgsl"].as_slice()),
        ("src/b/.git", ["src/b/.git/d.wgsl"].as_slice()),
        ("src/a.txt", ["src/a.txt"].as_slice()),
        ("src/.hidden.wgsl", ["src/.hidden.wgsl"].as_slice()),
        ("src/b/", ["src/b/c.wgsl"].as_slice()),
        ("..", ["../up.wgsl"].as_slice()),
        ("/", ["/root.wgsl"].as_slice()),
        ("none", ["none"].as_slice()),
    ] {
        let Ok(paths) = store.list(alloc, named) else {
            return Err(Fail::from(named));
        };
        assert_eq!(rt; paths.len(), listed.len(), "of {named}");
        for (path, wanted) in paths.iter().zip(listed) {
            assert!(rt; path.as_str() == *wanted, "{path} of {named}");
        }
    }
    Ok(())
}
