//! The requests of a command line.

ghost use Rattle.std.specs.Prelude.{◌≡◌, ◌||◌, option_map, unwrap_or};
ghost use Rattle.cbfscheck.specs.Requests.{colours_of, form_of, has_colours, images_of};
ghost use Rattle.cbfscheck.specs.Requests.{refuses_colours};

use check_line::CheckLine;
use check_report::{Asked, Colours, Files, Form, Request};

/// The paths of the images, in the order in which they are opened.
#[derive(Clone, Copy)]
pub enum Images<'a> {
    One(&'a str),
    OldAndNew(&'a str, &'a str),
}

/// Returns the images of a command line: the only one, or the old and then the new one.
pub fn images_of<'a>(line: &CheckLine<'a>) -> Images<'a>
    ensures { result ≡ images_of line.now }
{
    match line.new_image {
        Some(new) => Images::OldAndNew(line.image, new),
        None => Images::One(line.image),
    }
}

/// The standard output, with the variables of the environment that concern its colours.
#[derive(Clone, Copy)]
pub struct Screen<'a> {
    pub is_terminal: bool,
    /// The value of NO_COLOR, if set.
    pub no_color: Option<&'a str>,
    /// The value of TERM, if set.
    pub term: Option<&'a str>,
}

impl Screen<'_> {
    /// Returns whether NO_COLOR is set and not empty.
    fn refuses_colours(self) -> bool
        ensures { result ≡ refuses_colours self.entry }
    {
        match self.no_color {
            Some(value) => !value.is_empty(),
            None => false,
        }
    }

    /// Returns whether TERM names a terminal that is not `dumb`.
    fn has_colours(self) -> bool
        ensures { result ≡ has_colours self.entry }
    {
        match self.term {
            Some(name) => name != "dumb",
            None => false,
        }
    }

    /// Returns whether a report on this screen has colours.
    fn colours(self) -> Colours
        ensures { result ≡ colours_of self.entry }
    {
        if self.has_colours() && !self.refuses_colours() {
            Colours::On
        } else {
            Colours::Off
        }
    }
}

/// Returns the form of a report: JSON on request, tables on a terminal, and otherwise text.
pub fn form_of(line: &CheckLine<'_>, screen: Screen<'_>) -> Form
    ensures { result ≡ form_of line.now screen.entry }
{
    if line.is_json {
        Form::Json
    } else if screen.is_terminal {
        Form::Terminal(screen.colours())
    } else {
        Form::Text
    }
}

/// Returns the request of a command line, with a report in this form.
pub fn request_of<'l>(line: &'l CheckLine<'_>, form: Form) -> Request<'l>
    ensures areas { result.areas.now ≡ line.now.areas.items }
    ensures needs { result.needs.now ≡ line.now.needs.items }
    ensures kept { result.kept.now ≡ line.now.kept.items }
    ensures preserved { result.keeps_preserved ≡ (line.now.keeps_preserved || line.now.is_flash) }
    ensures strict { result.is_strict ≡ line.now.is_flash }
    ensures verbose { result.asked.is_verbose ≡ line.now.is_verbose }
    ensures hashes { result.asked.needs_hashes ≡ line.now.needs_hashes }
    ensures lists { result.asked.lists ≡ line.now.lists }
    ensures form { result.form ≡ form }
    ensures image { result.files.image ≡ unwrap_or line.now.new_image line.now.image }
    ensures old { result.files.old ≡ option_map (λ _. line.now.image) line.now.new_image }
{
    Request {
        areas: &line.areas,
        needs: &line.needs,
        kept: &line.kept,
        keeps_preserved: line.keeps_preserved || line.is_flash,
        is_strict: line.is_flash,
        asked: Asked {
            is_verbose: line.is_verbose,
            needs_hashes: line.needs_hashes,
            lists: line.lists,
        },
        form,
        files: Files {
            image: line.new_image.unwrap_or(line.image),
            old: line.new_image.and(Some(line.image)),
        },
    }
}
