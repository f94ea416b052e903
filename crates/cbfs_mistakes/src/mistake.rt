//! Mistakes of a command line.

/// The mistake of an argument.
#[derive(Clone, Copy, Debug, PartialEq, Eq)]
pub enum WordFault {
    /// A request for help, which only the manual page has.
    Help,
    /// An option before the command.
    EarlyOption,
    /// No name of a command.
    UnknownCommand,
    /// An option unknown to the command.
    UnknownOption,
    /// An option without its value.
    MissingValue,
    /// A repeated option.
    GivenTwice,
    /// An argument other than an option or an option's value.
    Unexpected,
}

/// The required options missing from a line.
#[derive(Clone, Copy, Debug, PartialEq, Eq)]
pub struct MissingOptions {
    /// `-n`.
    pub name: bool,
    /// `-f`.
    pub file: bool,
    /// `-M`.
    pub flash_map: bool,
    /// `-t`.
    pub kind: bool,
}

/// An option with a number as its value.
#[derive(Clone, Copy, Debug, PartialEq, Eq)]
pub enum NumberOption {
    /// `-a`.
    Alignment,
    /// `-b`.
    Base,
}

/// The mistake of a command line.
#[derive(Clone, Copy, Debug, PartialEq, Eq)]
pub enum Mistake<'a> {
    /// No argument.
    NoImage,
    /// An argument that is not UTF-8.
    NotText,
    /// An image without a command.
    NoCommand(&'a str),
    /// A command before the image.
    Swapped {
        image: &'a str,
        command: &'a str,
    },
    /// A wrong argument.
    Word {
        fault: WordFault,
        word: &'a str,
    },
    /// Missing options of the command.
    Missing {
        command: &'a str,
        options: MissingOptions,
    },
    /// Both `-a` and `-b`.
    TwoPlaces,
    /// A value other than a number below 2^32.
    BadNumber {
        option: NumberOption,
        value: &'a str,
    },
    /// No name or number of a type.
    UnknownType(&'a str),
    /// No name of a hash algorithm.
    UnknownHash(&'a str),
    /// A list of regions with an empty name.
    EmptyRegion(&'a str),
    /// A list of more than 16 regions.
    TooManyRegions,
}
