//! `.editorconfig` files.

use std::test::Fail;
use wgsl_choices::{Choices, IndentSize, IndentStyle, Newlines, read_size, read_width};
use wgsl_editorconfig::properties;

#[test]
fn reads_a_file(rt: HostRuntime) -> Result<(), Fail> {
    let found = properties(
        "\u{feff}# all files\r\nroot = true\r\n\r\n[*]\r\nindent_style = space\r\nindent_size = 2\r\n\
         end_of_line = crlf\r\nmax_line_length = 80\r\ninsert_final_newline = true\r\n\
         [Makefile]\r\nindent_style = tab\r\n[*.{wgsl,glsl}]\r\nMax_Line_Length = OFF\r\ntab_width = 8\r\n",
    );
    assert!(rt; found.root);
    let choices = Choices {
        width: Some(0),
        style: Some(IndentStyle::Spaces),
        size: Some(IndentSize::Columns(2)),
        tab_width: Some(8),
        newlines: Some(Newlines::CrLf),
    };
    assert!(rt; found.choices == choices);
    Ok(())
}

#[test]
fn reads_a_tab_as_a_size(rt: HostRuntime) -> Result<(), Fail> {
    let found = properties("[**.wgsl]\nindent_style = tab\nindent_size = tab\ntab_width = 3\n");
    assert!(rt; !found.root);
    let choices = Choices {
        style: Some(IndentStyle::Tab),
        size: Some(IndentSize::Tab),
        tab_width: Some(3),
        ..Choices::none()
    };
    assert!(rt; found.choices == choices);
    Ok(())
}

#[test]
fn passes_over_what_is_not_understood(rt: HostRuntime) -> Result<(), Fail> {
    for text in [
        "",
        "indent_size = 2",
        "[*.rs]\nindent_size = 2",
        "[shaders/*.wgsl]\nindent_size = 2",
        "[*]\nroot = true\nindent_size = 0\nindent_size = 17\nindent_style = both",
        "[*]\nend_of_line = cr\nmax_line_length = 10000\ntab_width = -1",
        "[*]\nindent_size = 2\nindent_size = unset",
        "[*]\n; indent_size = 2\n#indent_size = 2\nindent_size: 2\nindent_size 2",
        "[*\nindent_size = 2",
        "root = true\nroot = unset\n[é]\né = é\n",
    ] {
        let found = properties(text);
        assert!(rt;
            !found.root && found.choices == Choices::none(),
            "of {text}"
        );
    }
    Ok(())
}

#[test]
fn keeps_the_first_choice(rt: HostRuntime) -> Result<(), Fail> {
    let near = properties("[*]\nmax_line_length = 80\n").choices;
    let far = properties("[*]\nmax_line_length = 120\nindent_size = 2\n").choices;
    let both = Choices {
        size: Some(IndentSize::Columns(2)),
        ..near
    };
    assert!(rt; near.or(far) == both);
    assert!(rt; far.or(near) == far);
    assert!(rt; near.or(Choices::none()) == near);
    Ok(())
}

#[test]
fn reads_numbers(rt: HostRuntime) -> Result<(), Fail> {
    for (text, width, size) in [
        ("0", Some(0), None),
        ("16", Some(16), Some(16)),
        ("0017", Some(17), None),
        ("9999", Some(9999), None),
        ("10000", None, None),
        ("18446744073709551617", None, None),
        ("", None, None),
        ("+1", None, None),
        ("1 ", None, None),
        ("١", None, None),
    ] {
        assert!(rt; read_width(text) == width, "of {text}");
        assert!(rt; read_size(text) == size, "of {text}");
    }
    Ok(())
}
