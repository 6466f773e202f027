//! Tests of the arguments, of `.editorconfig` files, of files that are rewritten, of diffs, and
//! of runs over files.
#![tactic(auto)]

#[cfg(test)]
mod configs;
#[cfg(test)]
mod diffs;
#[cfg(test)]
mod editorconfigs;
#[cfg(test)]
mod ended;
#[cfg(test)]
mod files;
#[cfg(test)]
mod host;
#[cfg(test)]
mod options;
#[cfg(test)]
mod runs;
