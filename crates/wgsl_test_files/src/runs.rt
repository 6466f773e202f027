//! Runs of `wgsltidy` over files in memory.

use std::alloc::{AllocError, Global};
use std::collections::BTreeMap;
use std::test::Fail;
use wgsl_files::MemoryStore;
use wgsl_format_files::start;

/// A file to format, one that is formatted, and one with an error.
const FILES: [(&str, &str); 4] = [
    ("a.wgsl", "fn f(){}"),
    ("b/b.wgsl", "fn f() {\n    x = 1;\n}\n"),
    ("b/c.wgsl", "fn f() {\n    = 1;\n}\n"),
    ("b/d.txt", "no shader"),
];

fn store(alloc: Global) -> Result<MemoryStore, AllocError> {
    store_of(alloc, &FILES)
}

/// Returns files with these paths and texts.
pub fn store_of(alloc: Global, texts: &[(&str, &str)]) -> Result<MemoryStore, AllocError> {
    let mut files = BTreeMap::new(alloc);
    for (path, text) in texts {
        let bytes = Vec::from_slice(alloc, text.as_bytes())?;
        files.insert(String::from_str(alloc, path)?, bytes)?;
    }
    Ok(MemoryStore { files })
}

/// The status of a run, and what it wrote.
#[derive(Drop)]
pub struct Run {
    status: u8,
    output: Vec<u8>,
    errors: Vec<u8>,
}

/// Runs the program with the words of a text as its arguments, and this on the standard input.
pub fn run_of(
    alloc: Global,
    store: &mut MemoryStore,
    arguments: &str,
    input: &str,
) -> Result<Run, AllocError> {
    let mut words = Vec::new(alloc);
    for word in arguments.split_whitespace() {
        words.push(String::from_str(alloc, word)?)?;
    }
    let mut output = Vec::new(alloc);
    let mut errors = Vec::new(alloc);
    let mut bytes = input.as_bytes();
    let status = start(
        alloc,
        words.as_slice(),
        store,
        &mut bytes,
        &mut output,
        &mut errors,
    );
    Ok(Run {
        status,
        output,
        errors,
    })
}

/// Returns whether a run ends so.
pub fn is_run(run: &Run, status: u8, output: &str, errors: &str) -> bool {
    run.status == status
        && run.output.as_slice() == output.as_bytes()
        && run.errors.as_slice() == errors.as_bytes()
}

/// Returns whether the file at a path has this text.
pub fn has(store: &MemoryStore, path: &str, text: &str) -> bool {
    match store.files.get(path) {
        Some(bytes) => bytes.as_slice() == text.as_bytes(),
        None => false,
    }
}

const ERROR: &str = "b/c.wgsl:2:5: error: unexpected token `=`, \
    expected identifier, `&`, `@`, `{`, ..\n    = 1;\n    ^\n";

#[test]
fn formats_files_in_place(rt: HostRuntime) -> Result<(), Fail> {
    let alloc = rt.alloc();
    let mut store = store(alloc)?;
    let run = run_of(alloc, &mut store, "a.wgsl b none.wgsl", "")?;
    let errors = format!(in alloc;
        "{ERROR}none.wgsl: error: entity not found\n\
        4 files, 1 formatted, 2 with errors\n"
    )?;
    assert!(rt; is_run(&run, 4, "", errors.as_str()));
    assert!(rt; has(&store, "a.wgsl", "fn f() {}\n"));
    for (path, text) in FILES {
        assert!(rt; path == "a.wgsl" || has(&store, path, text), "of {path}");
    }
    Ok(())
}

#[test]
fn lists_and_shows_what_would_change(rt: HostRuntime) -> Result<(), Fail> {
    let alloc = rt.alloc();
    let mut store = store(alloc)?;
    let listed = run_of(alloc, &mut store, "--check --quiet a.wgsl b/b.wgsl", "")?;
    assert!(rt; is_run(&listed, 1, "a.wgsl\n", ""));
    let shown = run_of(alloc, &mut store, "--diff a.wgsl", "")?;
    let diff = "--- a.wgsl\n+++ a.wgsl\n@@ -1,1 +1,1 @@\n-fn f(){}\n\
        \\ No newline at end of file\n+fn f() {}\n";
    assert!(rt; is_run(&shown, 1, diff, ""));
    for (path, text) in FILES {
        assert!(rt; has(&store, path, text), "of {path}");
    }
    Ok(())
}

#[test]
fn formats_the_standard_input(rt: HostRuntime) -> Result<(), Fail> {
    let alloc = rt.alloc();
    let mut store = store(alloc)?;
    for arguments in ["", "-", "--quiet"] {
        let printed = run_of(alloc, &mut store, arguments, "fn f(){}")?;
        assert!(rt; is_run(&printed, 0, "fn f() {}\n", ""));
        let refused = run_of(alloc, &mut store, arguments, "fn f() { = }")?;
        let error = "<stdin>:1:10: error: unexpected token `=`, \
            expected identifier, `&`, `@`, `{`, ..\nfn f() { = }\n         ^\n";
        assert!(rt; is_run(&refused, 3, "", error));
    }
    let named = run_of(alloc, &mut store, "--stdin-path x.wgsl", "fn f() { = }")?;
    let error = "x.wgsl:1:10: error: unexpected token `=`, \
        expected identifier, `&`, `@`, `{`, ..\nfn f() { = }\n         ^\n";
    assert!(rt; is_run(&named, 3, "", error));
    let listed = run_of(alloc, &mut store, "--check -", "fn f(){}")?;
    assert!(rt; is_run(&listed, 1, "<stdin>\n", ""));
    Ok(())
}

/// A call that is broken where a line may have 20 columns.
const CALL: &str = "fn f() {\n    call(first, second);\n}\n";

#[test]
fn formats_by_a_width(rt: HostRuntime) -> Result<(), Fail> {
    let alloc = rt.alloc();
    let mut store = store(alloc)?;
    let broken = "fn f() {\n    call(\n        first,\n        second\n    );\n}\n";
    let narrow = run_of(alloc, &mut store, "--width 20", CALL)?;
    assert!(rt; is_run(&narrow, 0, broken, ""));
    let wide = run_of(alloc, &mut store, "--width=0 -", CALL)?;
    assert!(rt; is_run(&wide, 0, CALL, ""));
    Ok(())
}

#[test]
fn formats_by_an_indentation(rt: HostRuntime) -> Result<(), Fail> {
    let alloc = rt.alloc();
    let mut store = store(alloc)?;
    let tabs = run_of(alloc, &mut store, "--indent tab b/b.wgsl", "")?;
    assert!(rt; is_run(&tabs, 0, "", ""));
    assert!(rt; has(&store, "b/b.wgsl", "fn f() {\n\tx = 1;\n}\n"));
    let spaces = run_of(alloc, &mut store, "--indent=2 b/b.wgsl", "")?;
    assert!(rt; is_run(&spaces, 0, "", ""));
    assert!(rt; has(&store, "b/b.wgsl", "fn f() {\n  x = 1;\n}\n"));

    // A tab has four columns.
    let fits = run_of(alloc, &mut store, "--indent tab --width 24 -", CALL)?;
    assert!(rt; is_run(&fits, 0, "fn f() {\n\tcall(first, second);\n}\n", ""));
    let broken = "fn f() {\n\tcall(\n\t\tfirst,\n\t\tsecond\n\t);\n}\n";
    let narrow = run_of(alloc, &mut store, "--indent tab --width 23 -", CALL)?;
    assert!(rt; is_run(&narrow, 0, broken, ""));
    Ok(())
}

#[test]
fn formats_with_line_ends(rt: HostRuntime) -> Result<(), Fail> {
    let alloc = rt.alloc();
    let mut store = store(alloc)?;
    let files = run_of(
        alloc,
        &mut store,
        "--newlines crlf --quiet a.wgsl b/b.wgsl",
        "",
    )?;
    assert!(rt; is_run(&files, 0, "", ""));
    assert!(rt; has(&store, "a.wgsl", "fn f() {}\r\n"));
    assert!(rt; has(&store, "b/b.wgsl", "fn f() {\r\n    x = 1;\r\n}\r\n"));
    let kept = run_of(alloc, &mut store, "--newlines auto", "fn f(){}\r\n")?;
    assert!(rt; is_run(&kept, 0, "fn f() {}\r\n", ""));
    let lf = run_of(alloc, &mut store, "--newlines lf", "fn f(){}\r\n")?;
    assert!(rt; is_run(&lf, 0, "fn f() {}\n", ""));
    Ok(())
}

#[test]
fn tells_what_is_wrong_with_arguments(rt: HostRuntime) -> Result<(), Fail> {
    let alloc = rt.alloc();
    let mut store = store(alloc)?;
    let meant = run_of(alloc, &mut store, "--chek a.wgsl", "")?;
    let error = "error: unexpected argument '--chek' found\n\n  \
        tip: a similar argument exists: '--check'\n\n\
        Usage: wgsltidy --check [PATH]...\n\nFor more information, try '--help'.\n";
    assert!(rt; is_run(&meant, 2, "", error));
    let unknown = run_of(alloc, &mut store, "--colour a.wgsl", "")?;
    let error = "error: unexpected argument '--colour' found\n\n  \
        tip: to pass '--colour' as a value, use '-- --colour'\n\n\
        Usage: wgsltidy [OPTIONS] [PATH]...\n\nFor more information, try '--help'.\n";
    assert!(rt; is_run(&unknown, 2, "", error));
    let version = run_of(alloc, &mut store, "--version", "")?;
    assert!(rt; is_run(&version, 0, "wgsltidy 0.1.0\n", ""));
    for (path, text) in FILES {
        assert!(rt; has(&store, path, text), "of {path}");
    }
    Ok(())
}
