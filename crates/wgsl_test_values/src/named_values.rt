//! Words that are read.

use wgsl_tree_words::{
    AccessMode, AddressSpace, BuiltinValue, DiagnosticSeverity, InterpolationSampling,
    InterpolationType,
};

#[test]
fn words_are_read(rt: HostRuntime) {
    assert!(rt; DiagnosticSeverity::from_str("off") == Ok(DiagnosticSeverity::Off));
    assert!(rt; DiagnosticSeverity::from_str("Off") == Err(()));
    assert!(rt; AccessMode::from_str("read_write") == Ok(AccessMode::ReadWrite));
    assert!(rt; AddressSpace::from_str("storage") == Ok(AddressSpace::Storage));
    assert!(rt; AddressSpace::from_str("handle") == Err(()));
    assert!(rt; InterpolationType::from_str("flat") == Ok(InterpolationType::Flat));
    assert!(rt; InterpolationSampling::from_str("either") == Ok(InterpolationSampling::Either));
    assert!(rt; BuiltinValue::from_str("num_workgroups") == Ok(BuiltinValue::NumWorkgroups));
    assert!(rt; BuiltinValue::from_str("") == Err(()));
}
