//! Paths that no text gives, or that are made longer, and what is equal and hashes alike.

use std::hash::{DefaultHasher, Hash, Hasher};
use std::test::Fail;
use wgsl_parse::syntax::{ModulePath, PathOrigin};

#[test]
fn levels_that_are_too_many(rt: HostRuntime) -> Result<(), Fail> {
    let alloc = rt.alloc();
    let mut path = ModulePath::new(PathOrigin::Relative(usize::MAX), Vec::new(alloc));
    let suffix = ModulePath::new(PathOrigin::Relative(1), Vec::new(alloc));
    assert!(rt; !path.join_fits(&suffix));
    path.push(alloc, "a")?;
    assert!(rt; path.join_fits(&suffix));
    Ok(())
}

#[test]
fn longer_paths(rt: HostRuntime) -> Result<(), Fail> {
    let alloc = rt.alloc();
    let root = ModulePath::new_root(alloc);
    assert!(rt; root.is_root() && root.first().is_none());
    let mut path = root.clone(alloc)?;
    path.push(alloc, "a")?;
    assert!(rt; !path.is_root() && path.starts_with(&root) && !root.starts_with(&path));
    let names = vec![in alloc; String::from_str(alloc, "b")?]?;
    let path = path.join(alloc, names)?;
    assert_eq!(rt; path.first(), Some("a"));
    assert_eq!(rt; path.last(), Some("b"));
    Ok(())
}

#[test]
fn equal_paths_hash_alike(rt: HostRuntime) -> Result<(), Fail> {
    let path = ModulePath::from_str(rt.alloc(), "a::b")?;
    let copy = path.clone(rt.alloc())?;
    assert!(rt; path == copy && path != ModulePath::new_root(rt.alloc()));
    assert_eq!(rt; hash_of(&path), hash_of(&copy));
    let origin = &path.origin;
    assert!(rt; origin.is_package() && !origin.is_relative() && !origin.is_absolute());
    Ok(())
}

fn hash_of(path: &ModulePath) -> u64 {
    let mut state = DefaultHasher::new();
    path.hash(&mut state);
    state.finish()
}
