//! Places, and nodes that are at one.

use std::test::Fail;
use wgsl_span::{Span, Spanned};

#[test]
fn spans(rt: HostRuntime) {
    let span = Span::new(2..14);
    assert_eq!(rt; span, Span { start: 2, end: 14 });
    assert_eq!(rt; Span::from(span.range()), span);
    assert_eq!(rt; span.extend(Span::new(15..30)), Span::new(2..30));
    assert_eq!(rt; Span::default(), Span::new(0..0));
}

#[test]
fn nodes(rt: HostRuntime) -> Result<(), Fail> {
    let mut node = Spanned::new(rt.alloc(), 31u32, Span::new(25..29))?;
    assert_eq!(rt; node.span(), Span::new(25..29));
    *node.node_mut() = 32;
    assert_eq!(rt; *node.node(), 32);
    assert_eq!(rt; node.into_inner(), 32);
    Ok(())
}

/// Where two nodes are does not tell them apart.
#[test]
fn nodes_elsewhere_are_equal(rt: HostRuntime) -> Result<(), Fail> {
    let first = Spanned::with_default_span(rt.alloc(), 31u32)?;
    assert_eq!(rt; first.span(), Span::new(0..0));
    let second = Spanned::new_boxed(Box::new(rt.alloc(), 31u32)?, Span::new(25..29));
    assert_eq!(rt; second.span(), Span::new(25..29));
    assert!(rt; first == second);
    Ok(())
}
