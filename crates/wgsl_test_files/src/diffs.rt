//! Diffs.

use std::test::Fail;
use wgsl_diff::{hunks, lines_of, push_diff, script};

/// `patch` reads a name with a space up to a tab.
#[test]
fn ends_names_with_spaces(rt: HostRuntime) -> Result<(), Fail> {
    let alloc = rt.alloc();
    let new = lines_of(alloc, b"1\n")?;
    let lines = script(alloc, &[], &new)?;
    let hunks = hunks(alloc, &lines)?;
    let mut text = Vec::new(alloc);
    push_diff(alloc, &mut text, "a b.wgsl", &hunks)?;
    let wanted = "--- a b.wgsl\t\n+++ a b.wgsl\t\n@@ -0,0 +1,1 @@\n+1\n";
    assert!(rt; text.as_slice() == wanted.as_bytes());
    Ok(())
}

#[test]
fn shows_what_differs(rt: HostRuntime) -> Result<(), Fail> {
    let alloc = rt.alloc();
    let old = lines_of(alloc, b"1\n2\n3\n4\nb\n6\n7\n8\n9\n10\n11\n12\n13\n14\n15")?;
    let new = lines_of(
        alloc,
        b"0\n1\n2\n3\n4\nB\n6\n7\n8\n9\n10\n11\n12\n13\n14\n15\n",
    )?;
    let lines = script(alloc, &old, &new)?;
    let hunks = hunks(alloc, &lines)?;
    let mut text = Vec::new(alloc);
    push_diff(alloc, &mut text, "a.wgsl", &hunks)?;
    let wanted = "--- a.wgsl\n+++ a.wgsl\n@@ -1,8 +1,9 @@\n+0\n 1\n 2\n 3\n 4\n-b\n+B\n 6\n 7\n 8\n\
        @@ -12,4 +13,4 @@\n 12\n 13\n 14\n-15\n\\ No newline at end of file\n+15\n";
    assert!(rt; text.as_slice() == wanted.as_bytes());
    Ok(())
}
