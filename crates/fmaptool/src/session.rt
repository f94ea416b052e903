//! The files of fmaptool, and its steps.
use flash_store::{FileIdentity, Output, RepeatingSink, create_output, open_beside_standard};
use fmap_compiler::{ReadText, Refusal, run_with_text};
use fmap_steps::{Explanation, Failure, Invocation, Step, explain};
use std::fs::{File, OpenOptions};

const USAGE: &str = "usage: fmaptool INPUT.fmd OUTPUT\n";

/// A request, and the files opened by the steps of the request.
#[derive(Drop)]
pub struct Session<'r, 'w> {
    rt: &'r HostRuntime,
    invocation: Invocation<'w>,
    input: Option<ReadText<File>>,
    identity: Option<FileIdentity>,
    output: Option<Output<RepeatingSink<File>>>,
    /// The text of the descriptor, after `Step::Run`.
    text: Vec<u8>,
}

impl<'r, 'w> Session<'r, 'w> {
    /// Returns a session without open files.
    pub fn new(rt: &'r HostRuntime, invocation: Invocation<'w>) -> Session<'r, 'w> {
        Session {
            rt,
            invocation,
            input: None,
            identity: None,
            output: None,
            text: Vec::new(rt.alloc()),
        }
    }

    /// Takes a step of the request.
    pub fn take(&mut self, step: Step) -> Result<(), Failure> {
        match step {
            Step::PrintUsage => self.print_usage(step),
            Step::OpenInput => self.open_input(step),
            Step::IdentifyInput => self.identify_input(step),
            Step::MakeOutput => self.make_output(step),
            Step::Run => self.run(),
            Step::WriteOutput => self.write_output(),
        }
    }

    fn print_usage(&self, step: Step) -> Result<(), Failure> {
        let printed = self.rt.print(USAGE);
        printed.map_err(|fault| step.failure(&fault))
    }

    fn open_input(&mut self, step: Step) -> Result<(), Failure> {
        let Invocation::Compile { input, .. } = self.invocation else {
            return Err(Failure::Usage);
        };
        let file = open_beside_standard(self.rt, OpenOptions::new().read(true), input);
        let file = file.map_err(|fault| step.failure(&fault))?;
        self.input = Some(ReadText::new(file));
        Ok(())
    }

    fn identify_input(&mut self, step: Step) -> Result<(), Failure> {
        let Some(input) = &self.input else {
            return Err(Failure::Refused(Refusal::Read));
        };
        let metadata = input.reader.metadata();
        let metadata = metadata.map_err(|fault| step.failure(&fault))?;
        self.identity = Some(FileIdentity::of(&metadata));
        Ok(())
    }

    fn make_output(&mut self, step: Step) -> Result<(), Failure> {
        let (Invocation::Compile { output, .. }, Some(identity)) = (self.invocation, self.identity)
        else {
            return Err(Failure::Usage);
        };
        let file = create_output(self.rt, output, identity);
        let file = file.map_err(|fault| step.failure(&fault))?;
        self.output = Some(Output::new(self.rt.alloc(), RepeatingSink::new(file)));
        Ok(())
    }

    fn run(&mut self) -> Result<(), Failure> {
        match (&mut self.input, &mut self.output) {
            (Some(input), Some(output)) => {
                Ok(run_with_text(self.rt.alloc(), input, output, &mut self.text)?)
            }
            (None, _) => Err(Failure::Refused(Refusal::Read)),
            (_, None) => Err(Failure::Refused(Refusal::Output)),
        }
    }

    fn write_output(&mut self) -> Result<(), Failure> {
        match &mut self.output {
            Some(output) => Ok(output.flush()?),
            None => Err(Failure::Refused(Refusal::Output)),
        }
    }

    /// Explains the failure of a step, if the descriptor is refused.
    pub fn explanation(&self, failure: Failure) -> Option<Explanation> {
        match failure {
            Failure::Refused(Refusal::Descriptor(fault)) => explain(&self.text, fault),
            _ => None,
        }
    }
}
