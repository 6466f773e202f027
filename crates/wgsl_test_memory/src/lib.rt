//! Calls of which an allocation fails. They are made twice, and the allocation fails the first
//! time: a call that is out of memory leaves what it is called on as it was, and returns the same
//! as the second time when it is made again, as do all others. `rt try --test --fail-alloc 1000`
//! runs what is here, and tools/run_tests also a test for each allocation, which is a process of
//! its own.
#![tactic(auto)]

#[cfg(test)]
mod answers;
#[cfg(test)]
mod failing;
#[cfg(test)]
mod groups;
#[cfg(test)]
mod refusal;
#[cfg(test)]
mod texts;
#[cfg(test)]
mod tokens;
#[cfg(test)]
mod trees;
#[cfg(test)]
mod values;
