//! Tests of the libraries' public functions. A separate crate avoids a second proof of each
//! library.
#![tactic(auto)]

#[cfg(test)]
mod compiler;
#[cfg(test)]
mod edit;
#[cfg(test)]
mod failures;
#[cfg(test)]
mod output;
#[cfg(test)]
mod report;
#[cfg(test)]
mod rows;
#[cfg(test)]
mod support;
#[cfg(test)]
mod walk;
