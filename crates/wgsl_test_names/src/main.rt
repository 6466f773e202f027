//! Prints what happens to names in texts, and what uses refer to: of each file that the arguments
//! name, in the texts in it, which a NUL character separates.
#![tactic(auto)]

use std::alloc::{AllocError, Global};
use std::rt::{Env, Files};
use std::{fs, io};
use wgsl_read_names::{Branch, Declared, Entry, Event, Name, Names, Referent, Role, events, names};

/// Returns the word of a role.
fn role_word(role: Role) -> &'static str {
    match role {
        Role::Declares(Declared::Function) => "fn",
        Role::Declares(Declared::Parameter) => "parameter",
        Role::Declares(Declared::Structure) => "struct",
        Role::Declares(Declared::Member) => "member",
        Role::Declares(Declared::Alias) => "alias",
        Role::Declares(Declared::Constant) => "const",
        Role::Declares(Declared::Override) => "override",
        Role::Declares(Declared::Variable) => "var",
        Role::Declares(Declared::Let) => "let",
        Role::Uses => "use",
        Role::Unknown => "unknown",
        Role::Component => "component",
        Role::Word => "word",
    }
}

/// Returns the word of a condition.
fn branch_word(branch: Option<Branch>) -> &'static str {
    match branch {
        None => "-",
        Some(Branch::If) => "if",
        Some(Branch::Elif) => "elif",
        Some(Branch::Else) => "else",
        Some(Branch::Several) => "several",
    }
}

fn write_name(lines: &mut String, name: Name<'_>) -> Result<(), AllocError> {
    write!(lines, " {} {}", name.span.start, name.text)?;
    Ok(())
}

fn write_entry(lines: &mut String, entry: Entry<'_>) -> Result<(), AllocError> {
    write!(lines, " {}", branch_word(entry.branch))?;
    if let Some(name) = entry.name {
        write_name(lines, name)?;
    }
    Ok(())
}

/// Writes a line for an event.
fn write_event(lines: &mut String, event: Event<'_>) -> Result<(), AllocError> {
    match event {
        Event::Named(role, name) => {
            write!(lines, "{}", role_word(role))?;
            write_name(lines, name)?;
        }
        Event::InModule(entry) => {
            write!(lines, "in_module")?;
            write_entry(lines, entry)?;
        }
        Event::InScope(entry) => {
            write!(lines, "in_scope")?;
            write_entry(lines, entry)?;
        }
        Event::ScopeStart => write!(lines, "start")?,
        Event::ScopeEnd => write!(lines, "end")?,
    }
    write!(lines, "\n")?;
    Ok(())
}

/// Writes a line for what a use of a name may refer to.
fn write_referents(lines: &mut String, referents: &[Referent<'_>]) -> Result<(), AllocError> {
    write!(lines, "refers")?;
    for referent in referents {
        match referent {
            Referent::Declaration(number) => write!(lines, " d{number}")?,
            Referent::Outside(name) => write!(lines, " out:{name}")?,
        }
    }
    write!(lines, "\n")?;
    Ok(())
}

/// Writes a line for each use of a name, and for each declaration.
fn write_names(lines: &mut String, names: &Names<'_>) -> Result<(), AllocError> {
    for named in &names.names {
        if !named.referents.is_empty() {
            write_referents(lines, &named.referents)?;
        }
    }
    for name in &names.declarations {
        write!(lines, "declared")?;
        write_name(lines, *name)?;
        write!(lines, "\n")?;
    }
    Ok(())
}

/// Returns a line for each event in a text, each use and each declaration.
fn lines_of(alloc: Global, text: &str) -> Result<String, AllocError> {
    let mut lines = String::new(alloc);
    match events(alloc, text) {
        Ok(events) => {
            for event in events {
                write_event(&mut lines, event)?;
            }
        }
        Err(error) => write!(lines, "fault {}\n", error.span.start)?,
    }
    if let Ok(names) = names(alloc, text) {
        write_names(&mut lines, &names)?;
    }
    Ok(lines)
}

fn main(rt: HostRuntime) -> io::Result<()> {
    for file in std::env::args(&rt)?.skip(1) {
        let source = fs::read_to_string(&rt, file.as_str())?;
        for text in source.split('\0') {
            let lines = lines_of(rt.alloc(), text)?;
            println!(rt; "{lines}.")?;
        }
    }
    Ok(())
}
