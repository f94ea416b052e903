//! Styles on a terminal, by control sequences of ECMA-48.
ghost use Rattle.std.specs.Prelude.{◌≡◌, ◌++◌, OnOk};
ghost use Rattle.check_report.specs.Tables.{painted, style_end, style_of, style_start};

use crate::rows::form::Colours;
use crate::rows::text::push;
use std::alloc::AllocError;

/// The style of a text.
#[derive(Clone, Copy)]
pub enum Style {
    Plain,
    /// Bold and red.
    Bad,
    /// Yellow.
    Change,
    /// Green.
    Good,
}

impl Style {
    /// Returns the style of a line, by its first word.
    pub fn of(head: &str) -> Style
        ensures { result ≡ style_of head.now }
    {
        if head == "bad" {
            Style::Bad
        } else if head == "change" {
            Style::Change
        } else {
            Style::Plain
        }
    }

    fn start(self) -> &'static str
        ensures { result.now ≡ style_start self }
    {
        match self {
            Style::Plain => "",
            Style::Bad => "\x1b[1;31m",
            Style::Change => "\x1b[33m",
            Style::Good => "\x1b[32m",
        }
    }

    fn end(self) -> &'static str
        ensures { result.now ≡ style_end self }
    {
        match self {
            Style::Plain => "",
            Style::Bad | Style::Change | Style::Good => "\x1b[0m",
        }
    }
}

impl Colours {
    /// Appends a text in a style, or without a style if there are no colours. Returns an error if
    /// an allocation failed.
    pub fn push(self, out: &mut Vec<u8>, style: Style, text: &[u8]) -> Result<(), AllocError>
        ensures { OnOk result (out.new.items ≡ out.old.items ++ painted self style text.now) }
    {
        match self {
            Colours::Off => push(out, text),
            Colours::On => {
                push(out, style.start().as_bytes())?;
                push(out, text)?;
                push(out, style.end().as_bytes())
            }
        }
    }
}
