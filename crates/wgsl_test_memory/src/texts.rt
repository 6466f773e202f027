//! The texts that calls are made on.

pub const MODULES: [&str; 6] = [
    "@fragment fn frag_main() -> @location(0) vec4f { return vec4(1); }",
    "var<storage, read_write> s: array<vec4<f32>>=t;",
    "fn f() { loop { ; continuing { ; break if true; } } }",
    "fn f() { switch x { case a < b, : {} } }",
    "/* a */ fn f(/* b */ c: d) -> e { x = g[ /* h */ 1 ] /**/ + -y; /* i */ } // j",
    "@a enable b; enable c; @d requires e; @f alias G = h; @i const j = 1;",
];

/// What is not a module.
pub const FAULTS: [&str; 3] = ["@align fn", "const x = 1 #;", "fn f() { a = ) }"];

pub const DIRECTIVES: [&str; 2] = ["@if(a) enable f16;", "@if(a) diagnostic(off, x.y);"];

pub const DECLARATIONS: [&str; 3] = [
    "@x struct S { @size(16) a: b }",
    "@if(x) const_assert a;",
    "@compute @workgroup_size(1, 2, 3) fn g(@interpolate(flat) a: b) { let a: u32 = b; }",
];

pub const STATEMENTS: [&str; 6] = [
    "@a var<function> x;",
    "{ @a @b c++; @d e--; @f discard; @g h(i); @j return k; }",
    "for (@a i = 0; ; @b i++) {}",
    "while a { @b break; @c continue; }",
    "switch x { @a case 1, 2 {} @b default {} }",
    "loop { @a if b {} else if c {} else { ; } @d continuing { @e break if f; } }",
];

pub const EXPRESSIONS: [&str; 3] = ["f(a < b, c > (d),)", "-a.b[0] + (c)", "1.5f"];

pub const LITERALS: [&str; 2] = ["1.5f", "(1.5)"];

pub const LISTS: [&str; 2] = ["<i32,select(2,3,a>b)>", "<a < b"];

pub const PATHS: [&str; 3] = [
    "super::super::first::second",
    "package::first",
    "name::first",
];
