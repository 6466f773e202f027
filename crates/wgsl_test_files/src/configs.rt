//! Runs of `wgsltidy` over files for which `.editorconfig` files choose the layout.

use crate::runs::{has, is_run, run_of, store_of};
use std::test::Fail;

/// What files with four, two and no spaces, and with a tab, hold.
const FOUR: &str = "fn f() {\n    x = 1;\n}\n";

const TWO: &str = "fn f() {\n  x = 1;\n}\n";

const NONE: &str = "fn f(){x=1;}";

const TAB: &str = "fn f() {\n\tx = 1;\n}\n";

#[test]
fn takes_the_nearest_choice(rt: HostRuntime) -> Result<(), Fail> {
    let alloc = rt.alloc();
    let files = [
        (
            ".editorconfig",
            "[*]\nindent_size = 2\nend_of_line = crlf\n",
        ),
        ("a/.editorconfig", "[*.wgsl]\nend_of_line = lf\n"),
        ("a/b/.editorconfig", "[*]\nindent_style = tab\n"),
        ("a/b/c.wgsl", NONE),
        ("a/d.wgsl", NONE),
        ("e.wgsl", NONE),
    ];
    let mut store = store_of(alloc, &files)?;
    let run = run_of(alloc, &mut store, "--quiet a/b/c.wgsl a/d.wgsl e.wgsl", "")?;
    assert!(rt; is_run(&run, 0, "", ""));
    assert!(rt; has(&store, "a/b/c.wgsl", TAB));
    assert!(rt; has(&store, "a/d.wgsl", TWO));
    assert!(rt; has(&store, "e.wgsl", "fn f() {\r\n  x = 1;\r\n}\r\n"));

    // What the command line chooses holds for each.
    let chosen = run_of(alloc, &mut store, "--quiet --indent 4 a", "")?;
    assert!(rt; is_run(&chosen, 0, "", ""));
    assert!(rt; has(&store, "a/b/c.wgsl", FOUR));
    assert!(rt; has(&store, "a/d.wgsl", FOUR));
    Ok(())
}

#[test]
fn reads_no_file_above_a_root(rt: HostRuntime) -> Result<(), Fail> {
    let alloc = rt.alloc();
    let files = [
        (".editorconfig", "[*]\nindent_style = tab\n"),
        ("a/.editorconfig", "root = true\n[*.c]\nindent_size = 8\n"),
        ("a/b.wgsl", NONE),
        ("c/d.wgsl", NONE),
        ("/.editorconfig", "[*.{glsl,wgsl}]\nindent_size = 2\n"),
        ("/e/f.wgsl", NONE),
    ];
    let mut store = store_of(alloc, &files)?;
    let run = run_of(alloc, &mut store, "--quiet a/b.wgsl c/d.wgsl /e/f.wgsl", "")?;
    assert!(rt; is_run(&run, 0, "", ""));
    assert!(rt; has(&store, "a/b.wgsl", FOUR));
    assert!(rt; has(&store, "c/d.wgsl", TAB));
    assert!(rt; has(&store, "/e/f.wgsl", TWO));
    Ok(())
}

#[test]
fn formats_the_standard_input_as_a_file(rt: HostRuntime) -> Result<(), Fail> {
    let alloc = rt.alloc();
    let files = [
        (".editorconfig", "[*]\nindent_style = tab\n"),
        (
            "a/.editorconfig",
            "[*]\nindent_style = space\nindent_size = 2\n",
        ),
    ];
    let mut store = store_of(alloc, &files)?;
    let named = run_of(alloc, &mut store, "--stdin-path a/b.wgsl", NONE)?;
    assert!(rt; is_run(&named, 0, TWO, ""));
    let tab = run_of(alloc, &mut store, "--stdin-path b.wgsl", NONE)?;
    assert!(rt; is_run(&tab, 0, TAB, ""));

    // Without a name it is in no folder.
    for arguments in ["", "-", "--newlines lf"] {
        let filter = run_of(alloc, &mut store, arguments, NONE)?;
        assert!(rt; is_run(&filter, 0, FOUR, ""), "of {arguments}");
    }
    Ok(())
}
