//! A command with its open files, and its steps.
use cbfs_commands::{
    Command, MapNote, Refusal, RegionNote, Used, create_size, is_note_due, map_note, region_note,
    run_with_map,
};
use cbfs_line::Line;
use cbfs_steps::{Progress, Step, steps_of};
use flash_store::{
    FileFlash, FileSource, Lock, MemSource, OpenFault, Output, Paged, RepeatingSink, SinkFault,
    create_output,
};
use std::fs::File;
use std::io::{self, ErrorKind, Printer};

/// The receiver of a command's output.
#[derive(Drop)]
enum Receiver<'r> {
    Standard(Output<RepeatingSink<Printer<'r, HostRuntime>>>),
    File(Output<RepeatingSink<File>>),
}

/// The notes that are due after a command.
#[derive(Clone, Copy)]
pub struct Notes {
    pub region: Option<RegionNote>,
    pub map: Option<MapNote>,
    pub outdated_anchor: bool,
}

/// A command, and the files that its steps have opened.
///
/// The image with its buffers has 20 KiB. The caller owns the memory of the image, because a
/// session that contains the image would be moved several times.
#[derive(Drop)]
pub struct Session<'r, 'w, 'i> {
    rt: &'r HostRuntime,
    /// The path of IMAGE.
    path: &'w str,
    /// The path of FILE, or an empty path for a command without FILE.
    file: &'w str,
    command: Command<'w>,
    image: &'i mut Option<Paged<FileFlash>>,
    /// The flash map of a changed image before the change, and the region by the flash map.
    used: Option<Used>,
    input: Option<FileSource>,
    output: Receiver<'r>,
    /// The system's reason for a file that was not opened.
    reason: Option<ErrorKind>,
}

impl<'r, 'w, 'i> Session<'r, 'w, 'i> {
    /// Returns a session without open files, or the refusal of the command's arguments. The session
    /// stores the opened image in `image`.
    pub fn new(
        rt: &'r HostRuntime,
        line: &Line<'w>,
        image: &'i mut Option<Paged<FileFlash>>,
    ) -> Result<Session<'r, 'w, 'i>, Refusal> {
        Ok(Session {
            rt,
            path: line.image(),
            file: line.file().unwrap_or(""),
            command: line.command()?,
            image,
            used: None,
            input: None,
            output: Receiver::Standard(Output::keeping(
                rt.alloc(),
                RepeatingSink::new(io::writer(rt)),
            )),
            reason: None,
        })
    }

    /// Takes the steps of the command, and returns its first refusal.
    pub fn obey(&mut self) -> Result<(), Refusal> {
        let mut progress = Progress::Going;
        for step in steps_of(&self.command) {
            if progress.takes(*step) {
                progress = progress.after(*step, self.take(*step));
            }
        }
        progress.answer()
    }

    fn take(&mut self, step: Step) -> Result<(), Refusal> {
        match step {
            Step::OpenImage(lock) => self.open_image(step, lock),
            Step::OpenInput => self.open_input(step),
            Step::MakeOutput => self.make_output(step),
            Step::CreateImage => self.create_image(step),
            Step::Run => self.run(),
            Step::Unlock => self.unlock(),
            Step::WriteOutput => self.write_output(),
            Step::Store => self.store(),
        }
    }

    /// Returns the refusal of a file that is not opened, and stores the system's reason.
    fn not_opened(&mut self, step: Step, fault: OpenFault) -> Refusal {
        if let OpenFault::Failed(kind) = fault {
            self.reason = Some(kind);
        }
        step.refusal(fault)
    }

    /// Returns the system's reason for a file that was not opened.
    pub fn reason(&self) -> Option<ErrorKind> {
        self.reason
    }

    fn open_image(&mut self, step: Step, lock: Lock) -> Result<(), Refusal> {
        match FileFlash::open_with(self.rt, self.path, lock) {
            Ok(image) => {
                *self.image = Some(Paged::new(image));
                Ok(())
            }
            Err(fault) => Err(self.not_opened(step, fault)),
        }
    }

    fn open_input(&mut self, step: Step) -> Result<(), Refusal> {
        match FileSource::open(self.rt, self.file) {
            Ok(input) => {
                self.input = Some(input);
                Ok(())
            }
            Err(fault) => Err(self.not_opened(step, fault)),
        }
    }

    fn make_output(&mut self, step: Step) -> Result<(), Refusal> {
        let Some(image) = &*self.image else {
            return Err(Refusal::Device);
        };
        let file = create_output(self.rt, self.file, image.flash().identity());
        let file = file.map_err(|fault| step.refusal(OpenFault::from(fault)))?;
        self.output = Receiver::File(Output::new(self.rt.alloc(), RepeatingSink::new(file)));
        Ok(())
    }

    fn create_image(&mut self, step: Step) -> Result<(), Refusal> {
        let Some(input) = &mut self.input else {
            return Err(Refusal::Source);
        };
        match FileFlash::create(self.rt, self.path, create_size(input)?) {
            Ok(image) => {
                *self.image = Some(Paged::new(image));
                Ok(())
            }
            Err(fault) => Err(self.not_opened(step, fault)),
        }
    }

    fn run(&mut self) -> Result<(), Refusal> {
        let Some(image) = &mut *self.image else {
            return Err(Refusal::Device);
        };
        let (command, nothing) = (&self.command, &mut MemSource::new(&[]));
        let used = &mut self.used;
        match (&mut self.input, &mut self.output) {
            (Some(input), Receiver::Standard(out)) => {
                run_with_map(image, command, input, out, used)
            }
            (None, Receiver::Standard(out)) => run_with_map(image, command, nothing, out, used),
            (_, Receiver::File(out)) => run_with_map(image, command, nothing, out, used),
        }
    }

    fn unlock(&self) -> Result<(), Refusal> {
        if let Some(image) = &*self.image {
            image.flash().unlock();
        }
        Ok(())
    }

    fn write_output(&mut self) -> Result<(), Refusal> {
        let written: Result<(), SinkFault> = match &mut self.output {
            Receiver::Standard(out) => out.flush(),
            Receiver::File(out) => out.flush(),
        };
        Ok(written?)
    }

    fn store(&self) -> Result<(), Refusal> {
        match &*self.image {
            Some(image) => Ok(image.flash().write_back()?),
            None => Ok(()),
        }
    }

    /// Returns the notes that are due, under the lock of the image.
    pub fn notes(&mut self, answer: Result<(), Refusal>) -> Notes {
        let Some(image) = &mut *self.image else {
            return Notes {
                region: None,
                map: None,
                outdated_anchor: false,
            };
        };
        let used_map = match &self.used {
            Some(used) => Some(used.map),
            None => None,
        };
        Notes {
            region: region_note(image, &self.command, &self.used, answer),
            map: map_note(image, &self.command, &self.used, answer),
            outdated_anchor: is_note_due(image, &self.command, used_map, answer),
        }
    }
}
