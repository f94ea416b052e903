//! Compiles a flashmap descriptor into its table, as coreboot's fmaptool does.
#![tactic(auto)]

mod session;

use flash_store::program_words;
pub use fmap_compiler::{Refusal, run};
use fmap_steps::{Explanation, Failure, failure_of_words, read_words, status_of, steps_of};
use quoted_text::is_explained;
use session::Session;
use std::env;
use std::io::IsTerminal;
use std::process::ExitCode;

/// A failure, with its explanation.
#[derive(Drop)]
struct Failed {
    failure: Failure,
    explanation: Option<Explanation>,
}

impl From<Failure> for Failed {
    fn from(failure: Failure) -> Failed {
        Failed {
            failure,
            explanation: None,
        }
    }
}

/// Takes the steps of the command line, up to the first failure.
fn obey(rt: &HostRuntime) -> Result<(), Failed> {
    let words = program_words(rt).map_err(|fault| failure_of_words(&fault))?;
    let mut texts: Vec<&str> = Vec::new(rt.alloc());
    for word in &words {
        texts.push(word.as_str()).map_err(Failure::from)?;
    }
    let invocation = read_words(texts.as_slice())?;
    let mut session = Session::new(rt, invocation);
    for step in steps_of(&invocation) {
        if let Err(failure) = session.take(*step) {
            let explanation = session.explanation(failure);
            return Err(Failed {
                failure,
                explanation,
            });
        }
    }
    Ok(())
}

/// Returns true on a terminal, or if the environment variable CBFSTOOL_EXPLAIN requests
/// explanations.
fn is_wanted(rt: &HostRuntime) -> bool {
    let variable = env::var(rt, "CBFSTOOL_EXPLAIN").ok();
    is_explained(rt.stderr().is_terminal(), variable.as_deref())
}

/// Prints a failure, and its explanation if explanations are requested. Output errors are ignored.
fn print(rt: &HostRuntime, failed: &Failed) {
    let _told = eprintln!(rt; "fmaptool: {}", failed.failure);
    if let Some(explanation) = &failed.explanation
        && is_wanted(rt)
    {
        let _told = eprint!(rt; "fmaptool: {explanation}");
    }
}

fn main(rt: HostRuntime) -> ExitCode {
    let answer = obey(&rt);
    if let Err(failed) = &answer {
        print(&rt, failed);
    }
    ExitCode::from(status_of(answer.map_err(|failed| failed.failure)))
}
