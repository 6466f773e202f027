//! Files of the system that are rewritten.

use crate::ended::Ended;
use std::os::unix::fs::{PermissionsExt, symlink};
use std::test::Fail;
use std::{fs, process};
use wgsl_files::{HostStore, Mode, Rewritten, Store, rewrite};

/// A file is replaced through a link, which stays, and keeps its permissions.
#[test]
fn follows_links_and_keeps_permissions(rt: HostRuntime) -> Result<(), Fail> {
    let alloc = rt.alloc();
    let place = std::env::temp_dir(&rt)?;
    let id = process::id(rt.process());
    let folder = format!(in alloc; "{}/wgsl_test_files.{id}", place.as_str())?;
    fs::create_dir(&rt, folder.as_str())?;
    let file = format!(in alloc; "{folder}/a b.wgsl")?;
    let link = format!(in alloc; "{folder}/link")?;
    fs::write(&rt, file.as_str(), "x")?;
    fs::set_permissions(&rt, file.as_str(), fs::Permissions::from_mode(0o640))?;
    symlink(&rt, "a b.wgsl", link.as_str())?;
    let mut store = HostStore { rt: &rt };
    for path in [file.as_str(), link.as_str()] {
        fs::write(&rt, file.as_str(), "x")?;
        let Ok(Rewritten::Changed(before, after)) = rewrite(
            alloc,
            &mut store,
            &Ended,
            path,
            Mode::InPlace,
        ) else {
            return Err(Fail::from("not rewritten"));
        };
        assert!(rt; before.as_slice() == b"x".as_slice() && after.as_slice() == b"x\n".as_slice());
        assert!(rt; fs::read(&rt, file.as_str())?.as_slice() == b"x\n".as_slice());
        assert!(rt; fs::metadata(&rt, file.as_str())?.permissions().mode() & 0o777 == 0o640);
        assert!(rt; fs::symlink_metadata(&rt, link.as_str())?.is_symlink());
        assert_eq!(rt; fs::read_dir(&rt, folder.as_str())?.count(), 2);
    }
    fs::remove_dir_all(&rt, folder.as_str())?;
    Ok(())
}

/// A new file is written, an old one is replaced, and a folder is neither; no other file is left.
#[test]
fn writes_files(rt: HostRuntime) -> Result<(), Fail> {
    let alloc = rt.alloc();
    let place = std::env::temp_dir(&rt)?;
    let id = process::id(rt.process());
    let folder = format!(in alloc; "{}/wgsl_test_files.write.{id}", place.as_str())?;
    fs::create_dir(&rt, folder.as_str())?;
    let file = format!(in alloc; "{folder}/a")?;
    let below = format!(in alloc; "{folder}/none/a")?;
    let mut store = HostStore { rt: &rt };
    for text in ["x", "y"] {
        assert!(rt; store.write(alloc, file.as_str(), text.as_bytes()).is_ok());
        assert!(rt; fs::read(&rt, file.as_str())?.as_slice() == text.as_bytes());
    }
    for path in [folder.as_str(), below.as_str()] {
        assert!(rt; store.write(alloc, path, b"z").is_err(), "of {path}");
    }
    assert_eq!(rt; fs::read_dir(&rt, folder.as_str())?.count(), 1);
    fs::remove_dir_all(&rt, folder.as_str())?;
    Ok(())
}

/// A folder's files are listed, through links to files, and not those of folders that are links or
/// whose names begin with `.`.
#[test]
fn lists_folders(rt: HostRuntime) -> Result<(), Fail> {
    let alloc = rt.alloc();
    let place = std::env::temp_dir(&rt)?;
    let id = process::id(rt.process());
    let folder = format!(in alloc; "{}/wgsl_test_files.list.{id}", place.as_str())?;
    for name in ["", "/b c", "/.git"] {
        let path = format!(in alloc; "{folder}{name}")?;
        fs::create_dir(&rt, path.as_str())?;
    }
    for name in ["z.wgsl", "a.txt", "b c/y.wgsl", ".git/x.wgsl", ".w.wgsl"] {
        let path = format!(in alloc; "{folder}/{name}")?;
        fs::write(&rt, path.as_str(), "x")?;
    }
    let link = format!(in alloc; "{folder}/link.wgsl")?;
    symlink(&rt, "b c/y.wgsl", link.as_str())?;
    let turn = format!(in alloc; "{folder}/turn")?;
    symlink(&rt, ".", turn.as_str())?;
    let store = HostStore { rt: &rt };
    let Ok(listed) = store.list(alloc, folder.as_str()) else {
        return Err(Fail::from("not listed"));
    };
    assert_eq!(rt; listed.len(), 3);
    for (path, name) in listed.iter().zip(["b c/y.wgsl", "link.wgsl", "z.wgsl"]) {
        let wanted = format!(in alloc; "{folder}/{name}")?;
        assert!(rt; path.as_str() == wanted.as_str(), "{path}");
    }
    let Ok(alone) = store.list(alloc, link.as_str()) else {
        return Err(Fail::from("not listed"));
    };
    assert!(rt; alone.len() == 1 && alone[0].as_str() == link.as_str());
    fs::remove_dir_all(&rt, folder.as_str())?;
    Ok(())
}

/// A path leads from the root of the file system, through links, also into folders that are not
/// there.
#[test]
fn finds_paths_from_the_root(rt: HostRuntime) -> Result<(), Fail> {
    let alloc = rt.alloc();
    let place = std::env::temp_dir(&rt)?;
    let id = process::id(rt.process());
    let folder = format!(in alloc; "{}/wgsl_test_files.root.{id}", place.as_str())?;
    fs::create_dir(&rt, folder.as_str())?;
    let link = format!(in alloc; "{folder}/link")?;
    symlink(&rt, ".", link.as_str())?;
    let (above, here) = (
        fs::canonicalize(&rt, link.as_str())?,
        fs::canonicalize(&rt, ".")?,
    );
    let store = HostStore { rt: &rt };
    for name in ["a.wgsl", "none/a.wgsl", "none/b/a.wgsl"] {
        let linked = format!(in alloc; "{link}/{name}")?;
        for (named, root) in [(name, &here), (linked.as_str(), &above)] {
            let wanted = format!(in alloc; "{}/{name}", root.as_str())?;
            let absolute = store.absolute(alloc, named)?;
            assert!(rt;
                absolute.as_str() == wanted.as_str(),
                "{absolute} of {named}"
            );
        }
    }
    assert!(rt;
        store
            .absolute(alloc, "")?
            .as_str()
            .starts_with(here.as_str())
    );
    assert!(rt; store.absolute(alloc, "/none/a.wgsl")?.as_str() == "/none/a.wgsl");
    fs::remove_dir_all(&rt, folder.as_str())?;
    Ok(())
}
