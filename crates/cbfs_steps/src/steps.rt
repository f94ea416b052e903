//! The files of a command, and the order of its steps.
ghost use Rattle.std.specs.Prelude.{◌≡◌};
ghost use Rattle.cbfs_requests.specs.Requests.{request_of};
ghost use Rattle.cbfs_steps.specs.Steps.{file_use, lock_of, steps_of};

use cbfs_requests::Command;
use flash_store::Lock;

/// What FILE, the path of `-f` or `-M`, is to a command.
#[derive(Clone, Copy, Debug, PartialEq, Eq)]
pub enum FileUse {
    /// The command has no file.
    Unused,
    /// Its content is stored in the image.
    Input,
    /// It receives the output.
    Output,
    /// It begins with the flash map of the new image.
    NewMap,
}

/// A step of a command.
#[derive(Clone, Copy, Debug, PartialEq, Eq)]
pub enum Step {
    /// Opens IMAGE for reading and writing, with the lock.
    OpenImage(Lock),
    /// Opens FILE for reading.
    OpenInput,
    /// Creates or empties FILE, which must not be the image.
    MakeOutput,
    /// Reads the size of the new image from FILE, and creates IMAGE.
    CreateImage,
    /// Runs the command, and collects its output.
    Run,
    /// Releases the lock of IMAGE.
    Unlock,
    /// Writes the collected output.
    WriteOutput,
    /// Waits until a block device has stored the changes.
    Store,
}

/// Returns the lock of the image: shared if the command only reads.
pub fn lock_of(command: &Command) -> Lock
    ensures { result ≡ lock_of (request_of command.now) }
{
    match command {
        Command::Print { .. } | Command::Layout => Lock::Shared,
        Command::Extract { .. } | Command::Read { .. } => Lock::Shared,
        Command::Add { .. } | Command::Remove { .. } => Lock::Exclusive,
        Command::Write { .. } | Command::Create { .. } => Lock::Exclusive,
    }
}

/// Returns what FILE is to the command.
pub fn file_use(command: &Command) -> FileUse
    ensures { result ≡ file_use (request_of command.now) }
{
    match command {
        Command::Print { .. } | Command::Layout | Command::Remove { .. } => FileUse::Unused,
        Command::Extract { .. } | Command::Read { .. } => FileUse::Output,
        Command::Add { .. } | Command::Write { .. } => FileUse::Input,
        Command::Create { .. } => FileUse::NewMap,
    }
}

/// A listing is printed after the release of the lock, because its reader may wait for the lock.
const LISTING: [Step; 4] = [
    Step::OpenImage(Lock::Shared),
    Step::Run,
    Step::Unlock,
    Step::WriteOutput,
];

const COPY: [Step; 4] = [
    Step::OpenImage(Lock::Shared),
    Step::MakeOutput,
    Step::Run,
    Step::WriteOutput,
];

const REMOVAL: [Step; 3] = [Step::OpenImage(Lock::Exclusive), Step::Run, Step::Store];

const CHANGE: [Step; 4] = [
    Step::OpenImage(Lock::Exclusive),
    Step::OpenInput,
    Step::Run,
    Step::Store,
];

const CREATION: [Step; 4] = [Step::OpenInput, Step::CreateImage, Step::Run, Step::Store];

/// Returns the steps of the command, in order.
pub fn steps_of(command: &Command) -> &'static [Step]
    ensures { result.now ≡ steps_of (request_of command.now) }
{
    match command {
        Command::Print { .. } | Command::Layout => &LISTING,
        Command::Extract { .. } | Command::Read { .. } => &COPY,
        Command::Remove { .. } => &REMOVAL,
        Command::Add { .. } | Command::Write { .. } => &CHANGE,
        Command::Create { .. } => &CREATION,
    }
}
