//! Groups of calls, each with how many allocations they make at most: tools/run_tests has a test
//! for each of these.

use crate::failing::check_count;
use crate::{tokens, trees, values};

#[test]
fn modules(rt: HostRuntime) {
    check_count(&rt, trees::make_modules, 240);
}

#[test]
fn faults(rt: HostRuntime) {
    check_count(&rt, trees::make_faults, 101);
}

#[test]
fn declarations(rt: HostRuntime) {
    check_count(&rt, trees::make_declarations, 125);
}

#[test]
fn statements(rt: HostRuntime) {
    check_count(&rt, trees::make_statements, 224);
}

#[test]
fn expressions(rt: HostRuntime) {
    check_count(&rt, trees::make_expressions, 77);
}

#[test]
fn sources(rt: HostRuntime) {
    check_count(&rt, trees::make_sources, 57);
}

#[test]
fn texts(rt: HostRuntime) {
    check_count(&rt, trees::make_texts, 101);
}

#[test]
fn lists(rt: HostRuntime) {
    check_count(&rt, tokens::make_lists, 76);
}

#[test]
fn tokens(rt: HostRuntime) {
    check_count(&rt, tokens::make_tokens, 83);
}

#[test]
fn lexers(rt: HostRuntime) {
    check_count(&rt, tokens::make_lexers, 237);
}

#[test]
fn paths(rt: HostRuntime) {
    check_count(&rt, values::make_paths, 55);
}

#[test]
fn nodes(rt: HostRuntime) {
    check_count(&rt, values::make_nodes, 8);
}
