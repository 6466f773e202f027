//! Tests of values: spans, words, tokens, faults, paths, trees, names of nodes, new names, lists and
//! iterators of tokens, readers and writers that fail.
#![tactic(auto)]

#[cfg(test)]
mod chains;
#[cfg(test)]
mod faults;
#[cfg(test)]
mod lists;
#[cfg(test)]
mod making;
#[cfg(test)]
mod named_values;
#[cfg(test)]
mod names;
#[cfg(test)]
mod new_names;
#[cfg(test)]
mod nodes;
#[cfg(test)]
mod own_node;
#[cfg(test)]
mod parsers;
#[cfg(test)]
mod paths;
#[cfg(test)]
mod readings;
#[cfg(test)]
mod spans;
#[cfg(test)]
mod streams;
#[cfg(test)]
mod tokens;
#[cfg(test)]
mod trees;
#[cfg(test)]
mod watched;
